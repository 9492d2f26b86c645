// The numbers, readings and parts of a stored case. Of a part that the input's end cuts there is what stands before the
// end, so that a loop over cases needs no test but whether it has come to the end.
#![tactic(auto)]

ghost use Rattle.std.specs.Prelude.{◌≡◌, ◌+◌, ◌≤◌, length};
ghost use Rattle.case_parts.specs.Parts.{NumberAt, PartAt, reading_at};

// The number at a place.
pub fn number_at(s: &[u8], at: usize) -> usize
    ensures { NumberAt s.now at result }
{
    match s.get(at..) {
        Some([low, high, ..]) => usize::from(u16::from_le_bytes([*low, *high])),
        Some([low]) => usize::from(*low),
        _ => 0,
    }
}

// The bits of the reading at a place.
pub fn reading_at(s: &[u8], at: usize) -> u64
    requires { at + 8 ≤ length s.now }
    ensures { result ≡ reading_at s.now at }
{
    u64::from_le_bytes([
        s[at],
        s[at + 1],
        s[at + 2],
        s[at + 3],
        s[at + 4],
        s[at + 5],
        s[at + 6],
        s[at + 7],
    ])
}

// The part at a place.
pub fn part_at(s: &[u8], at: usize) -> &[u8]
    ensures { PartAt s.now at result.now }
{
    match s.get(at..) {
        Some([_, _, rest @ ..]) => rest.get(..number_at(s, at)).unwrap_or(rest),
        _ => &s[..0],
    }
}
