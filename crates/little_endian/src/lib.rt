// Little-endian numbers of two, four and eight bytes.
#![tactic(auto)]

ghost use Rattle.std.specs.Prelude.{◌≡◌, ◌+◌, ◌≤◌, length};
ghost use Rattle.model.specs.Vector.{two_bytes_at, four_bytes_at, eight_bytes_at};
ghost use Rattle.little_endian.specs.Numbers.{Read};

// The number that two bytes are.
pub fn two_bytes_at(s: &[u8], at: usize) -> u64
    requires { at + 2 ≤ length s.now }
    ensures { Read (two_bytes_at s.now at) 65536 result }
{
    u64::from(u16::from_le_bytes([s[at], s[at + 1]]))
}

// The number that four bytes are.
pub fn four_bytes_at(s: &[u8], at: usize) -> u64
    requires { at + 4 ≤ length s.now }
    ensures { Read (four_bytes_at s.now at) 4294967296 result }
{
    u64::from(u32::from_le_bytes([s[at], s[at + 1], s[at + 2], s[at + 3]]))
}

// The number that eight bytes are.
pub fn eight_bytes_at(s: &[u8], at: usize) -> u64
    requires { at + 8 ≤ length s.now }
    ensures { result ≡ eight_bytes_at s.now at }
{
    u64::from_le_bytes([
        s[at],
        s[at + 1],
        s[at + 2],
        s[at + 3],
        s[at + 4],
        s[at + 5],
        s[at + 6],
        s[at + 7],
    ])
}
