// Fields, a length and so many bytes: found at a place, and their bytes compared.
#![tactic(auto)]

ghost use Rattle.std.specs.Prelude.{◌≡◌};
ghost use Rattle.model.specs.Labels.{below, same_bytes};
ghost use Rattle.fields.specs.Fields.{field_at};

// How many bytes are few: for so many a loop costs less than a call of the library's `==`, which takes four bytes and more by
// groups.
pub const FEW: usize = 3;

// Whether bytes are the same, one after another, with no call in the loop. It serves where they are few.
pub fn same_few(a: &[u8], b: &[u8]) -> bool
    ensures { result ≡ same_bytes a.now b.now }
{
    if a.len() != b.len() {
        return false;
    }
    for i in 0..a.len() {
        if a[i] != b[i] {
            return false;
        }
    }
    true
}

#[tactic(auto, using(crate::proofs::Bytes::equal_bytes))]
pub fn same_bytes(a: &[u8], b: &[u8]) -> bool
    ensures { result ≡ same_bytes a.now b.now }
{
    if FEW < a.len() {
        a == b
    } else {
        same_few(a, b)
    }
}

// Whether the key a comes before the key b.
#[tactic(auto, using(crate::proofs::Bytes::lower_bytes))]
pub fn is_below(a: &[u8], b: &[u8]) -> bool
    ensures { result ≡ below a.now b.now }
{
    a < b
}

// Where a field's bytes start and end.
#[derive(Clone, Copy, Debug, PartialEq, Eq)]
pub struct Span {
    pub start: usize,
    pub end: usize,
}

// The field at a place; nothing where the bytes end before it does.
pub fn field_at(s: &[u8], at: usize) -> Option<Span>
    ensures { result ≡ field_at s.now at }
{
    if s.len() <= at {
        return None;
    }
    let n = usize::from(s[at]);
    let start = at + 1;
    if n <= s.len() - start {
        Some(Span {
            start,
            end: start + n,
        })
    } else {
        None
    }
}
