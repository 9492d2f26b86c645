// The row of a left series under a set rule, by the right series that it meets: several, one, or none.
ghost use Rattle.std.specs.Prelude.{◌≡◌, ◌<◌, ◌≤◌, ℕ, length, slice_index, EachIndex};
ghost use Rattle.model.specs.Row.{zip_with};
ghost use Rattle.plan.specs.Sets.{set_row, left_row};
ghost use Rattle.side_parts.specs.Lent.{RowsHeld};
ghost use Rattle.index_lists.specs.Places.{Within};
ghost use Rattle.set_series.specs.set_points.Points.{meant, on_reading};
ghost use Rattle.set_series.specs.left_rows.Rows.{LeftRowPut};

use crate::binaryop::{op_default, op_if, op_if_not};
use crate::set_points::{SetRule, filled_point, first_reading};

// Writes what f gives of each point and the left reading there.
fn put_points<F: Fn(usize, u64) -> u64>(f: F, left: &[u64], out: &mut [u64])
    requires callable { (i : ℕ) (x : ℕ) → i < length left.now → F.pre f i x }
    requires left_len { length left.now ≡ length out.old }
    ensures { EachIndex out.new (λ i. F.post f i (slice_index left.now i) (slice_index out.new i)) }
{
    for i in 0..out.len() {
        out[i] = f(i, left[i]);
    }
}

// The row of a left series that meets several right ones.
fn set_row(rule: SetRule, left: &[u64], rows: &[u64], places: &[usize], out: &mut [u64])
    requires left_len { length left.now ≡ length out.old }
    requires within { Within (length left.now) rows.now places.now }
    ensures { out.new ≡ set_row (meant rule) (length left.now) rows.now
        places.now left.now }
{
    let p = left.len();
    match rule {
        SetRule::WhereFound => put_points(
            move |i, x| op_if(x, first_reading(rows, p, i, places).reading),
            left,
            out,
        ),
        SetRule::WhereNone => put_points(
            move |i, x| op_if_not(x, first_reading(rows, p, i, places).reading),
            left,
            out,
        ),
        SetRule::Filled => put_points(move |i, x| filled_point(x, rows, p, i, places), left, out),
    }
}

// The row of a left series that meets one right one: a search would find its reading or none.
#[tactic(auto, using(rows::proofs::Zipping::zipped))]
fn set_one(rule: SetRule, left: &[u64], right: &[u64], out: &mut [u64])
    requires left_len { length left.now ≡ length out.old }
    requires right_len { length right.now ≡ length out.old }
    ensures { out.new ≡ zip_with (on_reading (meant rule)) left.now right.now }
{
    match rule {
        SetRule::WhereFound => rows::zip_rows(op_if, left, right, out),
        SetRule::WhereNone => rows::zip_rows(op_if_not, left, right, out),
        SetRule::Filled => rows::zip_rows(op_default, left, right, out),
    }
}

// Writes the row of a left series that meets the listed right ones.
fn put_with(rule: SetRule, left: &[u64], rows: &[u64], places: &[usize], out: &mut [u64])
    requires left_len { length left.now ≡ length out.old }
    requires within { Within (length left.now) rows.now places.now }
    ensures { out.new ≡ left_row (meant rule) (length left.now) rows.now
        places.now left.now }
{
    if places.is_empty() {
        side_parts::copy_row(out, left);
        return;
    }
    set_row(rule, left, rows, places, out);
}

// Writes the row of a left series by the ends of what it meets. One right series, or none, needs no list.
pub(crate) fn put_left_row(
    rule: SetRule,
    left: &[u64],
    keys: &[usize],
    rows: &[u64],
    first: usize,
    last: usize,
    places: &mut [usize],
    out: &mut [u64],
)
    requires left_len { length left.now ≡ length out.old }
    requires rows_held { RowsHeld (length left.now) rows.now keys.now }
    requires keys_in_bounds { length keys.now ≤ length places.old }
    ensures { LeftRowPut (meant rule) left.now keys.now rows.now first last
        places.old places.new out.new }
{
    if keys.len() <= last {
        side_parts::copy_row(out, left);
        return;
    }
    if first == last {
        set_one(rule, left, side_parts::row(rows, out.len(), last), out);
        return;
    }
    let m = index_lists::met(keys, first, last, places);
    put_with(rule, left, rows, &places[..m], out);
}
