// Which tags a join's edited record has: those set from a one-side series, the source, and the many side's that remain.
ghost use Rattle.std.specs.Prelude.{◌≡◌};
ghost use Rattle.model.specs.TagWalk.{is_set, remains};
ghost use Rattle.labels.specs.Names.{names_of};

// Whether the tags of a label are set from the source.
pub(crate) fn is_set(join: &[u8], skip: &[u8], label: &[u8]) -> bool
    ensures { result ≡ is_set (names_of join.now) (names_of skip.now) label.now }
{
    if labels::in_list(skip, label) {
        return false;
    }
    if labels::is_star(join) {
        return true;
    }
    labels::in_list(join, label)
}

// Whether the many side's tag of a label remains where the source has none.
pub(crate) fn remains(join: &[u8], skip: &[u8], label: &[u8]) -> bool
    ensures { result ≡ remains (names_of join.now) (names_of skip.now) label.now }
{
    if labels::is_star(join) {
        return true;
    }
    !is_set(join, skip, label)
}
