// The rule that a query asks for, run over both sides.
ghost use Rattle.std.specs.Prelude.{◌≡◌, length};
ghost use Rattle.operator.specs.Kinds.{kind_of};
ghost use Rattle.labels.specs.Names.{names_of};
ghost use Rattle.labels.specs.Matchings.{matching_of};
ghost use Rattle.query.specs.Queries.{query_of, join_of, ListsWithin};
ghost use Rattle.semantics.specs.Binop.{skip_list};
ghost use Rattle.side_parts.specs.Lent.{lent, shape_of};
ghost use Rattle.answers.specs.Outcomes.{Ran};
ghost use Rattle.keyed_sides.specs.Keyed.{drops_missing, SidesKeyed};
ghost use Rattle.binop_vector_vector.specs.dispatch.Runs.{Asked, sides_with, ran_sides};
ghost use Rattle.binop_vector_vector.specs.dispatch.Rules.{asked_work, asked_rule, first_names, ListsOf, FirstSide};

use answering::Rule;
use answers::Outcome;
use join_series::Work;
use labels::Matching;
use query::{Join, Query};
use side_parts::Shape;

// The labels that a join leaves alone: the `on` list.
fn skip_list<'a>(matching: Matching, names: &'a [u8]) -> &'a [u8]
    ensures { names_of result.now ≡ skip_list (matching_of matching) (names_of names.now) }
{
    match matching {
        Matching::On => names,
        Matching::All => &names[..0],
        Matching::Ignoring => &names[..0],
    }
}

// The list that a rule reads first: the matching's under one-to-one, else the join's.
fn first_list<'a>(join: Join, names: &'a [u8], joined: &'a [u8]) -> &'a [u8]
    ensures { names_of result.now ≡ first_names (join_of join) (names_of names.now) (names_of joined.now) }
{
    match join {
        Join::OneToOne => names,
        Join::GroupLeft => joined,
        Join::GroupRight => joined,
    }
}

// The two label lists beside a query's rule.
fn lists_of<'a>(query: &'a [u8], q: Query) -> [&'a [u8]; 2]
    requires { ListsWithin query.now q.join_at }
    ensures { ListsOf (query_of query.now q) (names_of (lent result 0)) (names_of (lent result 1)) }
{
    let to = q.join_at;
    let join = q.join;
    let matching = q.matching;
    let names = &query[4..to];
    [
        first_list(join, names, &query[to..]),
        skip_list(matching, names),
    ]
}

// What a join does with each pair of series.
fn work_of(q: Query, left: bool, lists: [&[u8]; 2]) -> Work
    ensures { result ≡ asked_work (names_of (lent lists.entry 0)) (names_of (lent lists.entry 1)) left q }
{
    let operator = q.operator;
    let reset = query_rules::should_reset_metric_group(q);
    Work {
        operator,
        as_bool: q.as_bool,
        left,
        naming: set_tags::naming_of(lists[0], lists[1], reset),
        allowance: q.allowance,
    }
}

// The rule that a query asks for: a set operator's own, for arithmetic and comparisons that of the join.
fn rule_of(q: Query, lists: [&[u8]; 2]) -> Rule
    ensures { result ≡ asked_rule (names_of (lent lists.entry 0)) (names_of (lent lists.entry 1)) q }
{
    let operator = q.operator;
    let join = q.join;
    if operator.is_logical_op() {
        return Rule::Set(operator);
    }
    match join {
        Join::OneToOne => Rule::Pairs(q),
        Join::GroupLeft => Rule::Join(work_of(q, true, lists)),
        Join::GroupRight => Rule::Join(work_of(q, false, lists)),
    }
}

// The side that a rule runs on first: the many side of a join, else the left one.
fn first_side(rule: Rule) -> usize
    ensures { FirstSide rule result }
{
    match rule {
        Rule::Pairs(_) => 0,
        Rule::Join(w) => { if w.left { 0 } else { 1 } }
        Rule::Set(_) => 0,
        Rule::Groups(_) => 0,
    }
}

// The keys are numbered: runs the query's rule.
pub(crate) fn run_keyed<'a>(
    query: &[u8],
    q: Query,
    shape: Shape,
    labels: [&[u8]; 2],
    at: [&[usize]; 2],
    left_keys: &'a [usize],
    right_keys: &'a [usize],
    rows: [&[u64]; 2],
    out_labels: &mut [u8],
    out: &mut [u64],
) -> Outcome
    requires asked { Asked query.now q }
    requires sides_keyed { let s = sides_with (shape_of shape) labels at left_keys.now right_keys.now rows in
        SidesKeyed (query_of query.now q) (drops_missing (kind_of q.operator)) s }
    ensures { let s = sides_with (shape_of shape) labels.entry at.entry left_keys.now right_keys.now rows.entry in
        Ran (ran_sides (query_of query.now q) s (length out_labels.old) (length out.old))
        out_labels.old out.old out_labels.new out.new result }
{
    let lists = lists_of(query, q);
    let rule = rule_of(q, lists);
    let keys = [left_keys, right_keys];
    let i = first_side(rule);
    let j = 1 - i;
    answering::run(
        rule,
        lists,
        shape,
        [labels[i], labels[j]],
        [at[i], at[j]],
        [keys[i], keys[j]],
        [rows[i], rows[j]],
        out_labels,
        out,
    )
}
