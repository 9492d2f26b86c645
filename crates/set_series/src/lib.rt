// The row of a code of a set rule, and whether a rule leaves a reading in a row.
#![tactic(auto)]

mod binaryop; // a rule on two readings
mod set_points; // a rule at one point
mod left_rows; // the row of a left series that meets several right ones, one, or none

ghost use Rattle.std.specs.Prelude.{◌≡◌, ◌≤◌, length};
ghost use Rattle.operator.specs.Kinds.{kind_of};
ghost use Rattle.plan.specs.Sets.{rule_by};
ghost use Rattle.side_parts.specs.Lent.{unlabelled, BothRowsHeld};
ghost use Rattle.set_series.specs.Series.{SetCode, SetRowPut};

use operator::Operator;
pub use set_points::{SetRule, leaves};

// Writes the row of a code. The places that a left series meets are listed in a part that is lent.
pub fn put_set_row(
    op: Operator,
    keys: [&[usize]; 2],
    rows: [&[u64]; 2],
    code: usize,
    places: &mut [usize],
    out: &mut [u64],
)
    requires both_rows_held { let s = unlabelled (length out.old) keys rows in BothRowsHeld s }
    requires set_code { let s = unlabelled (length out.old) keys rows in SetCode s code }
    requires keys_in_bounds { let s = unlabelled (length out.old) keys rows in
        length s.right.keys ≤ length places.old }
    ensures { let s = unlabelled (length out.old) keys.entry rows.entry in
        SetRowPut (rule_by (kind_of op)) s code places.old places.new out.new }
{
    let left_keys = keys[0];
    let n = left_keys.len();
    let p = out.len();
    let x = end_codes::left_last(code);
    if x < n {
        left_rows::put_left_row(
            set_points::set_rule(op),
            side_parts::row(rows[0], p, x),
            keys[1],
            rows[1],
            end_codes::right_first(code),
            end_codes::right_last(code),
            places,
            out,
        );
        return;
    }
    side_parts::copy_row(out, side_parts::row(rows[1], p, x - n));
}
