// The answer row of a code: each side's series over the last of them, and the operator on the two rows.
ghost use Rattle.std.specs.Prelude.{◌≡◌, true, ◌+◌, ◌*◌, ◌≤◌, ◌<◌, length};
ghost use Rattle.side_parts.specs.Lent.{RowsHeld, unlabelled, BothRowsHeld, Sides};
ghost use Rattle.key_places.specs.Two.{both_two};
ghost use Rattle.pair_series.specs.pair_rows.Rows.{read_side, coded_pair_row, PairCode};
ghost use Rattle.pair_series.specs.pair_rows.Rows.{side_work, left_work_after, right_work_after};

use crate::pair_parts;
use operator::Operator;

// Puts the series of a side together at the start of a work row, where there are several.
fn put_side(keys: &[usize], rows: &[u64], first: usize, last: usize, p: usize, work: &mut [u64])
    requires rows_held { RowsHeld p rows.now keys.now }
    requires last_in_bounds { last < length keys.now }
    requires p_in_bounds { p ≤ length work.old }
    ensures { work.new ≡ side_work p rows.now keys.now first last work.old }
{
    if last <= first {
        return;
    }
    overwriting::put_several(rows, keys, first, last, &mut work[..p]);
}

// The row of a side: its own where it has one series, else the start of a work row.
fn side_row<'a>(rows: &'a [u64], first: usize, last: usize, p: usize, work: &'a [u64]) -> &'a [u64]
    requires p_in_bounds { last * p + p ≤ length rows.now }
    requires p_in_bounds_2 { p ≤ length work.now }
    ensures { result.now ≡ read_side p rows.now first last work.now }
{
    if last <= first {
        return side_parts::row(rows, p, last);
    }
    &work[..p]
}

// Writes the answer row of a code, one side after the other.
fn put_side_by_side(
    op: Operator,
    as_bool: bool,
    keys: [&[usize]; 2],
    rows: [&[u64]; 2],
    code: usize,
    left_work: &mut [u64],
    right_work: &mut [u64],
    out: &mut [u64],
)
    requires both_rows_held { let s = unlabelled (length out.old) keys rows in BothRowsHeld s }
    requires pair_code { let s = unlabelled (length out.old) keys rows in PairCode s code }
    requires out_in_bounds { length out.old ≤ length left_work.old }
    requires out_in_bounds_2 { length out.old ≤ length right_work.old }
    ensures out_after { let s = unlabelled (length out.old) keys.entry rows.entry in out.new ≡ coded_pair_row op as_bool s code }
    ensures left_work_after { let s = unlabelled (length out.old) keys.entry rows.entry in
        left_work.new ≡ left_work_after s code left_work.old }
    ensures right_work_after { let s = unlabelled (length out.old) keys.entry rows.entry in
        right_work.new ≡ right_work_after s code right_work.old }
{
    let p = out.len();
    let first = end_codes::left_first(code);
    let last = end_codes::left_last(code);
    put_side(keys[0], rows[0], first, last, p, left_work);
    let left = side_row(rows[0], first, last, p, left_work);
    let first = end_codes::right_first(code);
    let last = end_codes::right_last(code);
    put_side(keys[1], rows[1], first, last, p, right_work);
    let right = side_row(rows[1], first, last, p, right_work);
    rows::apply_rows(op, as_bool, left, right, out);
}

// Writes the answer row of a code of two series on each side.
fn put_two(
    op: Operator,
    as_bool: bool,
    keys: [&[usize]; 2],
    rows: [&[u64]; 2],
    code: usize,
    left_work: &mut [u64],
    right_work: &mut [u64],
    out: &mut [u64],
)
    requires both_rows_held { let s = unlabelled (length out.old) keys rows in BothRowsHeld s }
    requires pair_code { let s = unlabelled (length out.old) keys rows in PairCode s code }
    requires out_in_bounds { length out.old ≤ length left_work.old }
    requires out_in_bounds_2 { length out.old ≤ length right_work.old }
    requires code_value { let s = unlabelled (length out.old) keys rows in
        both_two s.left.keys s.right.keys code ≡ true }
    ensures out_after { let s = unlabelled (length out.old) keys.entry rows.entry in out.new ≡ coded_pair_row op as_bool s code }
    ensures left_work_after { let s = unlabelled (length out.old) keys.entry rows.entry in
        left_work.new ≡ left_work_after s code left_work.old }
    ensures right_work_after { let s = unlabelled (length out.old) keys.entry rows.entry in
        right_work.new ≡ right_work_after s code right_work.old }
{
    let p = out.len();
    pair_parts::put_parts(
        op,
        as_bool,
        side_parts::row(rows[0], p, end_codes::left_last(code)),
        side_parts::row(rows[0], p, end_codes::left_first(code)),
        side_parts::row(rows[1], p, end_codes::right_last(code)),
        side_parts::row(rows[1], p, end_codes::right_first(code)),
        left_work,
        right_work,
        out,
    );
}

// Writes the answer row of a code. The work rows are lent: each is refilled where its side has several series.
pub fn put_pair_row(
    op: Operator,
    as_bool: bool,
    keys: [&[usize]; 2],
    rows: [&[u64]; 2],
    code: usize,
    left_work: &mut [u64],
    right_work: &mut [u64],
    out: &mut [u64],
)
    requires both_rows_held { let s = unlabelled (length out.old) keys rows in BothRowsHeld s }
    requires pair_code { let s = unlabelled (length out.old) keys rows in PairCode s code }
    requires out_in_bounds { length out.old ≤ length left_work.old }
    requires out_in_bounds_2 { length out.old ≤ length right_work.old }
    ensures out_after { let s = unlabelled (length out.old) keys.entry rows.entry in out.new ≡ coded_pair_row op as_bool s code }
    ensures left_work_after { let s = unlabelled (length out.old) keys.entry rows.entry in
        left_work.new ≡ left_work_after s code left_work.old }
    ensures right_work_after { let s = unlabelled (length out.old) keys.entry rows.entry in
        right_work.new ≡ right_work_after s code right_work.old }
{
    if key_places::both_two(keys, code) {
        put_two(op, as_bool, keys, rows, code, left_work, right_work, out);
        return;
    }
    put_side_by_side(op, as_bool, keys, rows, code, left_work, right_work, out);
}
