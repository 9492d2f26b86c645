// Label lists: searched, and which tags a query matches by.
#![tactic(auto)]

mod long_labels; // a list searched for a label of many bytes

ghost use Rattle.std.specs.Prelude.{◌≡◌};
ghost use Rattle.model.specs.Edits.{is_listed, is_star};
ghost use Rattle.labels.specs.Names.{names_of};
ghost use Rattle.labels.specs.Matchings.{MatchingBy};

// Whether a label is in a list. A label of few bytes (`fields::FEW`) is compared with no call in the loop, a longer one by the
// library's `==`. A call of its own, so that the loops over a record's tags stay small and have their steps inlined.
#[inline(never)]
pub fn in_list(list: &[u8], label: &[u8]) -> bool
    ensures { result ≡ is_listed (names_of list.now) label.now }
{
    if fields::FEW < label.len() {
        return long_labels::in_list(list, label);
    }
    if list.is_empty() {
        return false;
    }
    let mut p: usize = 1;
    for _ in 0..list[0] {
        let Some(name) = fields::field_at(list, p) else {
            return false;
        };
        if fields::same_few(&list[name.start..name.end], label) {
            return true;
        }
        p = name.end;
    }
    false
}

// Whether a list has the one label `*`.
pub fn is_star(list: &[u8]) -> bool
    ensures { result ≡ is_star (names_of list.now) }
{
    if list.is_empty() {
        return false;
    }
    let count = list[0];
    if count == 0 {
        return false;
    }
    let Some(name) = fields::field_at(list, 1) else {
        return false;
    };
    let label = &list[name.start..name.end];
    if count == 1 {
        return fields::same_bytes(label, b"*");
    }
    match fields::field_at(list, name.end) {
        Some(_) => false,
        None => fields::same_bytes(label, b"*"),
    }
}

// Which tags a query matches by.
#[derive(Clone, Copy, Debug, PartialEq, Eq)]
pub enum Matching {
    All,
    On,
    Ignoring,
}

// A byte that stands for no matching.
#[derive(Clone, Copy, Debug, PartialEq, Eq)]
pub struct UnknownMatching(pub u8);

// A matching by the byte of a query that stands for it.
impl TryFrom<u8> for Matching {
    type Error = UnknownMatching;

    ghost try_from_gives = { MatchingBy };

    fn try_from(b: u8) -> Result<Self, UnknownMatching> {
        match b {
            0 => Ok(Matching::All),
            1 => Ok(Matching::On),
            2 => Ok(Matching::Ignoring),
            _ => Err(UnknownMatching(b)),
        }
    }
}
