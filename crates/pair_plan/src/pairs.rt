// The pairs of one-to-one: which left series begin one, and the codes of the answer's rows.
ghost use Rattle.std.specs.Prelude.{◌≡◌, ◌<◌, length, get_or};
ghost use Rattle.plan.specs.Pairs.{is_pair};
ghost use Rattle.key_ends.specs.Ends.{PairEnds};
ghost use Rattle.index_lists.specs.Places.{NotedAll};
ghost use Rattle.pair_plan.specs.pairs.Pairing.{codes_from};

// Whether a left series is the first of a key that stands on both sides.
pub(crate) fn is_pair(lkeys: &[usize], rkeys: &[usize], ends: &[usize], i: usize) -> bool
    requires pair_ends { PairEnds lkeys.now rkeys.now ends.now }
    requires i_in_bounds { i < length lkeys.now }
    ensures { result ≡ is_pair lkeys.now rkeys.now (get_or lkeys.now i 0) i }
{
    lkeys[i] != key_ends::DROPPED
        && end_codes::left_first(ends[i]) == i
        && end_codes::right_first(ends[i]) < rkeys.len()
}

// Notes the codes of the answer, in answer order and as far as the list goes, and gives their number.
pub(crate) fn list_codes(
    lkeys: &[usize],
    rkeys: &[usize],
    ends: &[usize],
    list: &mut [usize],
) -> usize
    requires { PairEnds lkeys.now rkeys.now ends.now }
    ensures { NotedAll (codes_from lkeys.now rkeys.now 0 lkeys.now) 0
        list.old list.new result }
{
    let mut n: usize = 0;
    for i in 0..lkeys.len() {
        n = index_lists::note_if(is_pair(lkeys, rkeys, ends, i), ends[i], n, list);
    }
    n
}
