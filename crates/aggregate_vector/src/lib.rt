// An aggregate over one vector: request and vector are taken, the series numbered by their groups, and the rule run.
#![tactic(auto)]

ghost use Rattle.std.specs.Prelude.{◌≡◌, ◌+◌, ◌≤◌, length};
ghost use Rattle.model.specs.Limits.{max_series};
ghost use Rattle.labels.specs.Names.{names_of};
ghost use Rattle.labels.specs.Matchings.{matching_of};
ghost use Rattle.query.specs.aggregations.Requests.{grouping_of, aggregation_by};
ghost use Rattle.semantics.specs.Aggregates.{aggregate_call};
ghost use Rattle.side_parts.specs.Sides.{labels_in, Positions};
ghost use Rattle.side_parts.specs.Lent.{shape_of, Held};
ghost use Rattle.answers.specs.Outcomes.{Ran};
ghost use Rattle.key_numbers.specs.key_lookup.Keys.{numbers};
ghost use Rattle.keyed_sides.specs.TakenSides.{TakenSide};
ghost use Rattle.aggregate_vector.specs.Groups.{group_matching, keeps_name, series_stage};
ghost use Rattle.aggregate_vector.specs.Runs.{GroupsFor, numbers_for, vector_side, groups_outcome};

use answering::{Groups, Rule};
use answers::Outcome;
use key_numbers::KeyRule;
use labels::Matching;
use operator::Operator;
use query::{Aggregation, Grouping};
use side_parts::Shape;

// The tags that a group's labels keep.
fn matching_of(g: Grouping) -> Matching
    ensures { matching_of result ≡ group_matching (grouping_of g) }
{
    match g {
        Grouping::By => Matching::On,
        Grouping::Without => Matching::Ignoring,
    }
}

// Whether a group's labels keep the name.
fn keeps_name(g: Grouping, names: &[u8]) -> bool
    ensures { result ≡ keeps_name (grouping_of g) (names_of names.now) }
{
    match g {
        Grouping::By => labels::in_list(names, &Operator::METRIC_NAME),
        Grouping::Without => false,
    }
}

// What is done with each group.
fn groups_of(a: Aggregation, names: &[u8]) -> Groups
    ensures { GroupsFor (aggregation_by names.now a) result }
{
    let aggregate = a.aggregate;
    let grouping = a.grouping;
    Groups {
        aggregate,
        matching: matching_of(grouping),
        named: keeps_name(grouping, names),
    }
}

// Numbers series by the labels of their groups.
fn number_groups(g: Groups, names: &[u8], array: &[u8], at: &[usize], keys: &mut [usize])
    requires positions { Positions array.now at.now }
    requires at_len { length at.now ≡ length keys.old + 1 }
    requires keys_len_bound { length keys.old ≤ max_series }
    ensures { keys.new ≡ numbers_for g names.now (labels_in array.now at.now) }
{
    let mut hashes = [0u64; 512];
    let n = keys.len();
    let rule = KeyRule {
        named: g.named,
        matching: g.matching,
        list: names,
    };
    key_numbers::number_left(array, at, rule, &mut hashes[..n], keys);
}

// The series are numbered: runs the rule. The vector stands on both sides, of which the second is not read.
fn run_numbered(
    g: Groups,
    names: &[u8],
    shape: Shape,
    array: &[u8],
    at: &[usize],
    keys: &[usize],
    rows: &[u64],
    out_labels: &mut [u8],
    out: &mut [u64],
) -> Outcome
    requires { Held shape.points (vector_side array.now at.now keys.now rows.now) }
    ensures { Ran
        (groups_outcome g names.now (shape_of shape)
        (vector_side array.now at.now keys.now rows.now)
        (length out_labels.old) (length out.old))
        out_labels.old out.old out_labels.new out.new result }
{
    answering::run(
        Rule::Groups(g),
        [names, names],
        shape,
        [array, array],
        [at, at],
        [keys, keys],
        [rows, rows],
        out_labels,
        out,
    )
}

// The vector is taken: numbers its series.
fn run_groups(
    a: Aggregation,
    names: &[u8],
    shape: Shape,
    array: &[u8],
    at: &[usize],
    rows: &[u64],
    out_labels: &mut [u8],
    out: &mut [u64],
) -> Outcome
    requires { TakenSide shape.points array.now at.now rows.now }
    ensures { Ran
        (series_stage (aggregation_by names.now a) (shape_of shape) array.now at.now
        rows.now (length out_labels.old) (length out.old))
        out_labels.old out.old out_labels.new out.new result }
{
    let mut keys = [0usize; 512];
    let n = at.len() - 1;
    let g = groups_of(a, names);
    number_groups(g, names, array, at, &mut keys[..n]);
    run_numbered(
        g,
        names,
        shape,
        array,
        at,
        &keys[..n],
        rows,
        out_labels,
        out,
    )
}

// Runs a request for an aggregate over a vector. A label part begins with the sizes; the output's label part gets the
// records alone.
pub fn exec_aggregate(
    request: &[u8],
    labels: &[u8],
    readings: &[u64],
    out_labels: &mut [u8],
    out: &mut [u64],
) -> Outcome
    ensures { Ran
        (aggregate_call request.now labels.now readings.now
        (length out_labels.old) (length out.old))
        out_labels.old out.old out_labels.new out.new result }
{
    let a = query::take_aggregation(request)?;
    let mut at = [0usize; 513];
    let vector = timeseries::take_vector(labels, readings, &mut at).map_err(
        |fault| vector_faults::fault_of(0, fault),
    )?;
    let e = vector.series + 1;
    run_groups(
        a,
        &request[2..],
        vector.shape,
        &labels[Operator::SIZES_LENGTH..],
        &at[..e],
        readings,
        out_labels,
        out,
    )
}
