// The plan of a set operator: the codes of its answer's rows, listed. It refuses nothing.
#![tactic(auto)]

mod left_series; // whether a left series answers, and the ends of what it meets
mod set_operators; // what the set operators differ in
mod set_listing; // the codes of the answer's rows, listed

ghost use Rattle.std.specs.Prelude.{◌≡◌};
ghost use Rattle.operator.specs.Kinds.{kind_of};
ghost use Rattle.plan.specs.Sets.{work_for};
ghost use Rattle.side_parts.specs.Lent.{shape_of, sides, BothHeld};
ghost use Rattle.index_lists.specs.Places.{NotedAll};
ghost use Rattle.set_plan.specs.Codes.{set_codes};

use operator::Operator;
use side_parts::Shape;

// Lists the codes of the answer's rows, and counts them. Counts on where the list is full.
pub fn plan_set(
    op: Operator,
    shape: Shape,
    labels: [&[u8]; 2],
    at: [&[usize]; 2],
    keys: [&[usize]; 2],
    rows: [&[u64]; 2],
    codes: &mut [usize],
) -> usize
    requires { let s = sides (shape_of shape) labels at keys rows in BothHeld s }
    ensures { let s = sides (shape_of shape) labels.entry at.entry keys.entry rows.entry in
        NotedAll (set_codes (work_for (kind_of op) s) s) 0 codes.old codes.new result }
{
    let scalar = set_operators::is_scalar(labels[1], at[1]);
    let w = set_operators::set_work(op, scalar, keys[0].is_empty());
    set_listing::list_rows(w, shape.points, keys, rows, codes)
}
