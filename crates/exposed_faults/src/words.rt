// Names and keys: ASCII letters, digits, `_` and, in names, `:`; no digit first.
ghost use Rattle.std.specs.Prelude.{◌≡◌, ◌||◌};
ghost use Rattle.exposition.specs.Faults.{is_digit, begins, is_word};

#[tactic(auto, unfolding(exposition::specs::Faults::is_letter, exposition::specs::Faults::begins))]
fn can_begin(colon: bool, b: u8) -> bool
    ensures { result ≡ begins colon b }
{
    b.is_ascii_alphabetic() || b == b'_' || (colon && b == b':')
}

fn can_follow(colon: bool, b: u8) -> bool
    ensures { result ≡ (begins colon b || is_digit b) }
{
    can_begin(colon, b) || b.is_ascii_digit()
}

pub(crate) fn is_word(colon: bool, s: &[u8]) -> bool
    ensures { result ≡ is_word colon s.now }
{
    match s {
        [first, rest @ ..] => can_begin(colon, *first)
            && rest.iter().all(|b| can_follow(colon, *b)),
        [] => false,
    }
}
