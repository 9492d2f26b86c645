// UTF-8, by table 3-7 of Unicode.
ghost use Rattle.std.specs.Prelude.{◌≡◌};
ghost use Rattle.exposition.specs.Faults.{leads, more_bytes, lowest, highest, is_utf8};

#[tactic(auto, unfolding(exposition::specs::Faults::leads))]
fn can_lead(b: u8) -> bool
    ensures { result ≡ leads b }
{
    matches!(b, 0..=0x7f | 0xc2..=0xf4)
}

#[tactic(auto, unfolding(exposition::specs::Faults::more_bytes))]
fn more_bytes(b: u8) -> usize
    ensures { result ≡ more_bytes b }
{
    match b {
        0..=0x7f => 0,
        0x80..=0xdf => 1,
        0xe0..=0xef => 2,
        _ => 3,
    }
}

#[tactic(auto, unfolding(exposition::specs::Faults::lowest))]
fn lowest_of(b: u8) -> u8
    ensures { result ≡ lowest b }
{
    match b {
        0xe0 => 0xa0,
        0xf0 => 0x90,
        _ => 0x80,
    }
}

#[tactic(auto, unfolding(exposition::specs::Faults::highest))]
fn highest_of(b: u8) -> u8
    ensures { result ≡ highest b }
{
    match b {
        0xed => 0x9f,
        0xf4 => 0x8f,
        _ => 0xbf,
    }
}

// Byte by byte: how many bytes of a sequence are due, and from where to where the next of them may lie.
#[tactic(auto, using(crate::proofs::utf8::Laws::next_byte, crate::proofs::utf8::Laws::no_byte))]
pub(crate) fn is_utf8(s: &[u8]) -> bool
    ensures { result ≡ is_utf8 s.now }
{
    let mut due: usize = 0;
    let mut low: u8 = 0x80;
    let mut high: u8 = 0xbf;
    for b in s {
        if due == 0 {
            if !can_lead(*b) {
                return false;
            }
            due = more_bytes(*b);
            low = lowest_of(*b);
            high = highest_of(*b);
        } else {
            if *b < low || high < *b {
                return false;
            }
            due -= 1;
            low = 0x80;
            high = 0xbf;
        }
    }
    due == 0
}
