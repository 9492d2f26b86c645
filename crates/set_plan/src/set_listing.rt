// The codes of a set operator's answer rows, listed.
ghost use Rattle.std.specs.Prelude.{◌≡◌, ◌≤◌, length};
ghost use Rattle.model.specs.Limits.{max_series};
ghost use Rattle.side_parts.specs.Lent.{unlabelled};
ghost use Rattle.key_ends.specs.Ends.{SideEnds};
ghost use Rattle.index_lists.specs.Places.{NotedAll};
ghost use Rattle.set_plan.specs.Codes.{set_codes};
ghost use Rattle.set_plan.specs.set_operators.Works.{meant_work};
ghost use Rattle.set_plan.specs.set_listing.Lists.{SetHeld, right_codes, LeftsListed};

use crate::left_series;
use crate::set_operators::SetWork;

// Lists the left rows of the answer, by the right places of their keys.
fn list_left(
    w: SetWork,
    p: usize,
    keys: [&[usize]; 2],
    rows: [&[u64]; 2],
    ends: &[usize],
    places: &mut [usize],
    list: &mut [usize],
) -> usize
    requires set_held { let s = unlabelled p keys rows in SetHeld w.falls s }
    requires side_ends { let s = unlabelled p keys rows in SideEnds s.right.keys s.left.keys ends.now }
    requires keys_in_bounds { let s = unlabelled p keys rows in length s.right.keys ≤ length places.old }
    ensures { let s = unlabelled p keys.entry rows.entry in
        LeftsListed (meant_work w) s places.old places.new list.old list.new result }
{
    let left_keys = keys[0];
    let right_keys = keys[1];
    let mut n = 0;
    for i in 0..left_keys.len() {
        let e = left_series::met_ends(w.falls, right_keys.len(), ends[i]);
        let left = side_parts::row(rows[0], p, i);
        let here = left_series::left_answers(w.rule, left, right_keys, rows[1], e, places);
        n = index_lists::note_if(here, end_codes::both_code(i, e), n, list);
    }
    n
}

// Lists the right rows, whose key no left series has, behind the n before them, by the left places of their keys.
fn list_right(
    left_keys: &[usize],
    keys: &[usize],
    ends: &[usize],
    n: usize,
    list: &mut [usize],
) -> usize
    requires left_keys_len_bound { length left_keys.now ≤ max_series }
    requires keys_len_bound { length keys.now ≤ max_series }
    requires side_ends { SideEnds left_keys.now keys.now ends.now }
    requires n_le_max_series { n ≤ max_series }
    ensures { NotedAll (right_codes left_keys.now 0 keys.now) n
        list.old list.new result }
{
    let mut r = n;
    for j in 0..keys.len() {
        let here = end_codes::side_first(ends[j]) == left_keys.len();
        r = index_lists::note_if(here, end_codes::both_code(left_keys.len() + j, 0), r, list);
    }
    r
}

// Lists the rows of the answer: left ones, then right ones. Counts on where the list is full.
pub(crate) fn list_rows(
    w: SetWork,
    p: usize,
    keys: [&[usize]; 2],
    rows: [&[u64]; 2],
    list: &mut [usize],
) -> usize
    requires { let s = unlabelled p keys rows in SetHeld w.falls s }
    ensures { let s = unlabelled p keys.entry rows.entry in NotedAll (set_codes (meant_work w) s) 0 list.old list.new result }
{
    let mut ends = [0usize; 512];
    let mut places = [0usize; 512];
    key_ends::side_ends(keys[1], keys[0], &mut ends);
    let n = list_left(w, p, keys, rows, &ends, &mut places, list);
    if w.adds {
        key_ends::side_ends(keys[0], keys[1], &mut ends);
        return list_right(keys[0], keys[1], &ends, n, list);
    }
    n
}
