// A query run over two vectors: both are taken, their keys numbered, and the operator's rule run.
#![tactic(auto)]

mod dispatch; // the rule of an operator over both sides

ghost use Rattle.std.specs.Prelude.{◌≡◌, not, length};
ghost use Rattle.operator.specs.Kinds.{kind_of};
ghost use Rattle.labels.specs.Names.{names_of};
ghost use Rattle.labels.specs.Matchings.{matching_of};
ghost use Rattle.query.specs.Queries.{query_of};
ghost use Rattle.semantics.specs.Call.{call, same_grid};
ghost use Rattle.side_parts.specs.Lent.{lent, BothHeld, shape_of};
ghost use Rattle.answers.specs.Outcomes.{Ran};
ghost use Rattle.keyed_sides.specs.TakenSides.{TakenSide};
ghost use Rattle.keyed_sides.specs.Keyed.{drops_missing, KeysKept};
ghost use Rattle.binop_vector_vector.specs.dispatch.Runs.{Asked, sides_with, ran_taken};

use answers::{Outcome, Refusal};
use labels::Matching;
use operator::Operator;
use query::Query;
use side_parts::Shape;

// Whether two sides lie on different grids.
fn grids_differ(left: Shape, right: Shape) -> bool
    ensures { result ≡ not (same_grid (shape_of left) (shape_of right)) }
{
    left.start != right.start || left.step != right.step
}

// Numbers the keys of both sides' series that take part under an operator.
fn number_kept(
    op: Operator,
    matching: Matching,
    names: &[u8],
    shape: Shape,
    labels: [&[u8]; 2],
    at: [&[usize]; 2],
    rows: [&[u64]; 2],
    left_keys: &mut [usize],
    right_keys: &mut [usize],
)
    requires { let s = sides_with (shape_of shape) labels at left_keys.old right_keys.old rows in
        BothHeld s }
    ensures { let s = sides_with (shape_of shape) labels.entry at.entry left_keys.old right_keys.old rows.entry in
        KeysKept (matching_of matching) (names_of names.now) (drops_missing (kind_of op)) s left_keys.new
        right_keys.new }
{
    keyed_sides::number_keys(matching, names, labels, at, left_keys, right_keys);
    keyed_sides::drop_for(op, shape.points, rows, left_keys, right_keys);
}

// Both sides are taken on one shape: numbers their keys.
fn run<'a>(
    query: &[u8],
    q: Query,
    shape: Shape,
    labels: [&[u8]; 2],
    left_at: &'a [usize],
    right_at: &'a [usize],
    rows: [&[u64]; 2],
    out_labels: &mut [u8],
    out: &mut [u64],
) -> Outcome
    requires asked { Asked query.now q }
    requires taken_side { TakenSide shape.points (lent labels 0) left_at.now (lent rows 0) }
    requires taken_side_2 { TakenSide shape.points (lent labels 1) right_at.now (lent rows 1) }
    ensures { Ran
        (ran_taken (query_of query.now q) (shape_of shape) (lent labels.entry 0) left_at.now
        (lent rows.entry 0) (lent labels.entry 1) right_at.now (lent rows.entry 1) (length out_labels.old)
        (length out.old))
        out_labels.old out.old out_labels.new out.new result }
{
    let mut left_keys = [0usize; 512];
    let mut right_keys = [0usize; 512];
    let n = left_at.len() - 1;
    let m = right_at.len() - 1;
    let matching = q.matching;
    let operator = q.operator;
    let to = q.join_at;
    number_kept(
        operator,
        matching,
        &query[4..to],
        shape,
        labels,
        [left_at, right_at],
        rows,
        &mut left_keys[..n],
        &mut right_keys[..m],
    );
    dispatch::run_keyed(
        query,
        q,
        shape,
        labels,
        [left_at, right_at],
        &left_keys[..n],
        &right_keys[..m],
        rows,
        out_labels,
        out,
    )
}

// Runs a query over two vectors. A label part begins with the sizes; the output's label part gets the records alone.
pub fn exec_binop<'a>(
    query: &[u8],
    left_labels: &'a [u8],
    left: &'a [u64],
    right_labels: &'a [u8],
    right: &'a [u64],
    labels: &mut [u8],
    out: &mut [u64],
) -> Outcome
    ensures { Ran
        (call query.now left_labels.now left.now right_labels.now
        right.now (length labels.old) (length out.old))
        labels.old out.old labels.new out.new result }
{
    let q = query::take_query(query)?;
    let mut left_at = [0usize; 513];
    let l = timeseries::take_vector(left_labels, left, &mut left_at).map_err(
        |fault| vector_faults::fault_of(0, fault),
    )?;
    let mut right_at = [0usize; 513];
    let r = timeseries::take_vector(right_labels, right, &mut right_at).map_err(
        |fault| vector_faults::fault_of(1, fault),
    )?;
    if r.shape.points != l.shape.points {
        return Err(Refusal::Unequal);
    }
    if grids_differ(l.shape, r.shape) {
        return Err(Refusal::GridsDiffer);
    }
    let e = l.series + 1;
    let f = r.series + 1;
    run(
        query,
        q,
        l.shape,
        [
            &left_labels[Operator::SIZES_LENGTH..],
            &right_labels[Operator::SIZES_LENGTH..],
        ],
        &left_at[..e],
        &right_at[..f],
        [left, right],
        labels,
        out,
    )
}
