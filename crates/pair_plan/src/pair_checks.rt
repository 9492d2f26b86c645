// The merges of one-to-one tried, key by key; nothing is written but a work row.
ghost use Rattle.std.specs.Prelude.{◌≡◌, false, ◌+◌, ◌-◌, ◌*◌, ◌≤◌, ◌<◌, length, get_or, take, drop};
ghost use Rattle.model.specs.Row.{merged};
ghost use Rattle.mergeable.specs.Mergeable.{merged_if};
ghost use Rattle.plan.specs.Keys.{first_of, KeyEnds};
ghost use Rattle.plan.specs.Merging.{merge_group, merge_last};
ghost use Rattle.plan.specs.Pairs.{pair_clash, pairs_clash};
ghost use Rattle.side_parts.specs.Sides.{row_at};
ghost use Rattle.side_parts.specs.Lent.{RowsHeld, unlabelled, BothRowsHeld, Sides};
ghost use Rattle.key_places.specs.Two.{are_two, LastBetween};
ghost use Rattle.key_ends.specs.Ends.{CodeOf, PairEnds};
ghost use Rattle.overwriting.specs.Several.{then_row, merge_one};
ghost use Rattle.pair_series.specs.pair_rows.Rows.{PairCode};
ghost use Rattle.pair_plan.specs.pair_checks.Checks.{failure_of, failed_in, TriedGroup, three_merge};
ghost use Rattle.pair_plan.specs.pair_checks.Checks.{twos_merge, clash_in, clash_at};

use crate::pairs;
use answers::{Clash, Twice};
use merging::Unmerged;

// Whether the row of one series merges into that of another; nothing is written.
fn row_merges(rows: &[u64], p: usize, into: usize, from: usize, allowance: usize) -> bool
    requires p_in_bounds { into * p + p ≤ length rows.now }
    requires p_in_bounds_2 { from * p + p ≤ length rows.now }
    ensures { merged_if result (row_at p rows.now into) (row_at p rows.now from) ≡ merged allowance
        (row_at p rows.now into) (row_at p rows.now from) }
{
    mergeable::merges(
        side_parts::row(rows, p, into),
        side_parts::row(rows, p, from),
        allowance,
    )
}

// Whether the rows of a key from a place up to another, and then the row there, merge into one. That last one is only
// tried, since nothing reads the merged row afterwards.
fn ensure_between(
    rows: &[u64],
    keys: &[usize],
    k: usize,
    from: usize,
    prev: usize,
    allowance: usize,
    row: &mut [u64],
) -> Result<(), Unmerged>
    requires from_le_prev { from ≤ prev }
    requires prev_in_bounds { prev < length keys.now }
    requires row_in_bounds { length keys.now * length row.old ≤ length rows.now }
    ensures { TriedGroup
        (then_row
        (merge_group allowance (length row.old) rows.now k from
        (take (prev - from) (drop from keys.now)) row.old)
        (merge_one allowance (length row.old) rows.now prev))
        (length row.old) row.new result }
{
    merging::merge_between(rows, keys, k, from, prev, allowance, row)?;
    if mergeable::merges(row, side_parts::row(rows, row.len(), prev), allowance) {
        Ok(())
    } else {
        Err(Unmerged(prev))
    }
}

// Whether no other series of a key stands between two of its places, and the rows of these two merge, one after the
// other, into that of a last place: all three are tried in one pass.
fn three_merge(
    rows: &[u64],
    keys: &[usize],
    k: usize,
    first: usize,
    prev: usize,
    last: usize,
    p: usize,
    allowance: usize,
) -> bool
    requires rows_held { RowsHeld p rows.now keys.now }
    requires first_in_bounds { first < length keys.now }
    requires prev_in_bounds { prev < length keys.now }
    requires last_in_bounds { last < length keys.now }
    ensures { result ≡ three_merge allowance p rows.now keys.now k first prev last }
{
    key_places::are_two(keys, k, first, prev)
        && mergeable::three_merge(
            side_parts::row(rows, p, last),
            side_parts::row(rows, p, first),
            side_parts::row(rows, p, prev),
            allowance,
        )
}

// Whether three or more series of a key become a single one, tried in turn: the first is tried on the last, then put
// over it, at the start of a work row, and those between them, of which prev is the last, are merged into that.
fn ensure_in_turn(
    rows: &[u64],
    keys: &[usize],
    k: usize,
    first: usize,
    prev: usize,
    last: usize,
    p: usize,
    allowance: usize,
    work: &mut [u64],
) -> Result<(), Unmerged>
    requires rows_held { RowsHeld p rows.now keys.now }
    requires key_ends { KeyEnds keys.now k first last }
    requires first_lt_last { first < last }
    requires last_between { LastBetween keys.now k first last prev }
    requires p_in_bounds { p ≤ length work.old }
    ensures result_value { failed_in result ≡ failure_of (merge_last allowance p rows.now keys.now k) }
    ensures work_len_unchanged { length work.new ≡ length work.old }
{
    if !row_merges(rows, p, last, first, allowance) {
        return Err(Unmerged(first));
    }
    merge::put_overwritten(
        &mut work[..p],
        side_parts::row(rows, p, last),
        side_parts::row(rows, p, first),
    );
    ensure_between(rows, keys, k, first + 1, prev, allowance, &mut work[..p])
}

// Whether three or more series of a key become a single one: at once where they are three that merge, else in turn.
fn ensure_several(
    rows: &[u64],
    keys: &[usize],
    k: usize,
    first: usize,
    last: usize,
    p: usize,
    allowance: usize,
    work: &mut [u64],
) -> Result<(), Unmerged>
    requires rows_held { RowsHeld p rows.now keys.now }
    requires key_ends { KeyEnds keys.now k first last }
    requires first_lt_last { first < last }
    requires last_value { are_two keys.now k first last ≡ false }
    requires p_in_bounds { p ≤ length work.old }
    ensures result_value { failed_in result ≡ failure_of (merge_last allowance p rows.now keys.now k) }
    ensures work_len_unchanged { length work.new ≡ length work.old }
{
    let prev = key_places::last_of(&keys[..last], k);
    if three_merge(rows, keys, k, first, prev, last, p, allowance) {
        return Ok(());
    }
    ensure_in_turn(rows, keys, k, first, prev, last, p, allowance, work)
}

// Whether several series of a key become a single one. Where they are two, the first is tried on the last with no copy.
fn ensure_merges(
    rows: &[u64],
    keys: &[usize],
    k: usize,
    first: usize,
    last: usize,
    p: usize,
    allowance: usize,
    work: &mut [u64],
) -> Result<(), Unmerged>
    requires rows_held { RowsHeld p rows.now keys.now }
    requires key_ends { KeyEnds keys.now k first last }
    requires first_lt_last { first < last }
    requires p_in_bounds { p ≤ length work.old }
    ensures result_value { failed_in result ≡ failure_of (merge_last allowance p rows.now keys.now k) }
    ensures work_len_unchanged { length work.new ≡ length work.old }
{
    if !key_places::are_two(keys, k, first, last) {
        return ensure_several(rows, keys, k, first, last, p, allowance, work);
    }
    if row_merges(rows, p, last, first, allowance) {
        Ok(())
    } else {
        Err(Unmerged(first))
    }
}

// Whether the series of a key on one side become a single one.
fn ensure_single_timeseries(
    rows: &[u64],
    keys: &[usize],
    k: usize,
    first: usize,
    last: usize,
    p: usize,
    allowance: usize,
    work: &mut [u64],
) -> Result<(), Unmerged>
    requires rows_held { RowsHeld p rows.now keys.now }
    requires key_ends { KeyEnds keys.now k first last }
    requires p_in_bounds { p ≤ length work.old }
    ensures result_value { failed_in result ≡ failure_of (merge_last allowance p rows.now keys.now k) }
    ensures work_len_unchanged { length work.new ≡ length work.old }
{
    if first < last {
        ensure_merges(rows, keys, k, first, last, p, allowance, work)
    } else {
        Ok(())
    }
}

// Both sides of a key, the left one first.
fn check_pair(
    allowance: usize,
    p: usize,
    keys: [&[usize]; 2],
    rows: [&[u64]; 2],
    k: usize,
    c: usize,
    work: &mut [u64],
) -> Result<(), Twice>
    requires both_rows_held { let s = unlabelled p keys rows in BothRowsHeld s }
    requires code_of { let s = unlabelled p keys rows in CodeOf s.left.keys s.right.keys k c }
    requires k_in_bounds { let s = unlabelled p keys rows in first_of s.left.keys k < length s.left.keys }
    requires k_in_bounds_2 { let s = unlabelled p keys rows in first_of s.right.keys k < length s.right.keys }
    requires p_in_bounds { p ≤ length work.old }
    ensures result_value { let s = unlabelled p keys.entry rows.entry in clash_in result ≡ pair_clash allowance s k }
    ensures work_len_unchanged { length work.new ≡ length work.old }
{
    let left = end_codes::left_last(c);
    ensure_single_timeseries(
        rows[0],
        keys[0],
        k,
        end_codes::left_first(c),
        left,
        p,
        allowance,
        work,
    )
    .map_err(|e| Twice::Left(Clash {
        kept: left,
        failed: e.0,
    }))?;
    let right = end_codes::right_last(c);
    ensure_single_timeseries(
        rows[1],
        keys[1],
        k,
        end_codes::right_first(c),
        right,
        p,
        allowance,
        work,
    )
    .map_err(|e| Twice::Right(Clash {
        kept: right,
        failed: e.0,
    }))
}

// Whether a code has exactly two series on each side, and they merge: both sides are tried at once.
fn two_merge(allowance: usize, p: usize, keys: [&[usize]; 2], rows: [&[u64]; 2], c: usize) -> bool
    requires both_rows_held { let s = unlabelled p keys rows in BothRowsHeld s }
    requires pair_code { let s = unlabelled p keys rows in PairCode s c }
    ensures { let s = unlabelled p keys.entry rows.entry in result ≡ twos_merge allowance s c }
{
    key_places::both_two(keys, c)
        && mergeable::both_merge(
            side_parts::row(rows[0], p, end_codes::left_last(c)),
            side_parts::row(rows[0], p, end_codes::left_first(c)),
            side_parts::row(rows[1], p, end_codes::right_last(c)),
            side_parts::row(rows[1], p, end_codes::right_first(c)),
            allowance,
        )
}

// Both sides of a key: at once where they merge so, else the left one first.
fn try_pair(
    allowance: usize,
    p: usize,
    keys: [&[usize]; 2],
    rows: [&[u64]; 2],
    k: usize,
    c: usize,
    work: &mut [u64],
) -> Result<(), Twice>
    requires both_rows_held { let s = unlabelled p keys rows in BothRowsHeld s }
    requires code_of { let s = unlabelled p keys rows in CodeOf s.left.keys s.right.keys k c }
    requires k_in_bounds { let s = unlabelled p keys rows in first_of s.left.keys k < length s.left.keys }
    requires k_in_bounds_2 { let s = unlabelled p keys rows in first_of s.right.keys k < length s.right.keys }
    requires p_in_bounds { p ≤ length work.old }
    ensures result_value { let s = unlabelled p keys.entry rows.entry in clash_in result ≡ pair_clash allowance s k }
    ensures work_len_unchanged { length work.new ≡ length work.old }
{
    if two_merge(allowance, p, keys, rows, c) {
        return Ok(());
    }
    check_pair(allowance, p, keys, rows, k, c, work)
}

// The merges of the answer series that a left place gives, if it gives one.
fn check_at(
    allowance: usize,
    p: usize,
    keys: [&[usize]; 2],
    rows: [&[u64]; 2],
    ends: &[usize],
    i: usize,
    work: &mut [u64],
) -> Result<(), Twice>
    requires both_rows_held { let s = unlabelled p keys rows in BothRowsHeld s }
    requires pair_ends { let s = unlabelled p keys rows in PairEnds s.left.keys s.right.keys ends.now }
    requires i_in_bounds { let s = unlabelled p keys rows in i < length s.left.keys }
    requires p_in_bounds { p ≤ length work.old }
    ensures result_value { let s = unlabelled p keys.entry rows.entry in
        clash_in result ≡ clash_at allowance s i (get_or s.left.keys i 0) }
    ensures work_len_unchanged { length work.new ≡ length work.old }
{
    let lkeys = keys[0];
    if pairs::is_pair(lkeys, keys[1], ends, i) {
        try_pair(allowance, p, keys, rows, lkeys[i], ends[i], work)
    } else {
        Ok(())
    }
}

// Every merge, in answer order, up to the first that fails.
pub(crate) fn check_pairs(
    allowance: usize,
    p: usize,
    keys: [&[usize]; 2],
    rows: [&[u64]; 2],
    ends: &[usize],
    work: &mut [u64],
) -> Result<(), Twice>
    requires both_rows_held { let s = unlabelled p keys rows in BothRowsHeld s }
    requires pair_ends { let s = unlabelled p keys rows in PairEnds s.left.keys s.right.keys ends.now }
    requires p_in_bounds { p ≤ length work.old }
    ensures result_value { let s = unlabelled p keys.entry rows.entry in clash_in result ≡ pairs_clash allowance s 0 s.left.keys }
    ensures work_len_unchanged { length work.new ≡ length work.old }
{
    for i in 0..keys[0].len() {
        check_at(allowance, p, keys, rows, ends, i, work)?;
    }
    Ok(())
}
