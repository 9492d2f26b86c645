// A list searched for a label of many bytes.
ghost use Rattle.std.specs.Prelude.{◌≡◌};
ghost use Rattle.model.specs.Edits.{is_listed};
ghost use Rattle.labels.specs.Names.{names_of};

// Whether a label is in a list, as `crate::in_list` says it; each name is compared by groups of bytes, by a call.
#[inline(never)]
pub(crate) fn in_list(list: &[u8], label: &[u8]) -> bool
    ensures { result ≡ is_listed (names_of list.now) label.now }
{
    if list.is_empty() {
        return false;
    }
    let mut p: usize = 1;
    for _ in 0..list[0] {
        let Some(name) = fields::field_at(list, p) else {
            return false;
        };
        if fields::same_bytes(&list[name.start..name.end], label) {
            return true;
        }
        p = name.end;
    }
    false
}
