// The families by their rule: the plan of a rule, and the record and the row of a code of its plan.
ghost use Rattle.std.specs.Prelude.{◌≡◌, ◌+◌, ◌≤◌, ◌<◌, length};
ghost use Rattle.model.specs.Limits.{max_series};
ghost use Rattle.model.specs.Record.{encode};
ghost use Rattle.writing.specs.Written.{Put};
ghost use Rattle.side_parts.specs.Sides.{record_at, Positions};
ghost use Rattle.side_parts.specs.Lent.{sides, shape_of, lent, labelled, unlabelled, BothHeld, BothFormed, BothRowsHeld};
ghost use Rattle.end_codes.specs.Codes.{side_first};
ghost use Rattle.answers.specs.Tallies.{SizedRecord};
ghost use Rattle.join_records.specs.Records.{LabelRoom};
ghost use Rattle.join_plan.specs.place_plans.Places.{Clean};
ghost use Rattle.answering.specs.families.Codes.{rule_labels, rule_row, RecordIn, CodeIn, WorkRoom, WorkKept};
ghost use Rattle.answering.specs.families.Plans.{RulePlanned};

use answers::Twice;
use join_series::Work;
use kept_labels::Size;
use labels::Matching;
use operator::Operator;
use query::{Aggregate, Query};
use side_parts::Shape;

// What an aggregate does with each group of the first side's series: the tags that its label keeps, and whether it keeps the name.
#[derive(Clone, Copy)]
pub struct Groups {
    pub aggregate: Aggregate,
    pub matching: Matching,
    pub named: bool,
}

// A rule. Beside it two lists of labels are lent.
#[derive(Clone, Copy)]
pub enum Rule {
    Pairs(Query), // one-to-one: the first list is that of the matching
    Join(Work), // a join, its many side the first: the labels that it joins by, and those that it leaves alone
    Set(Operator), // a set operator: its lists are not read
    Groups(Groups), // an aggregate: the first list is that of its grouping; the second side is not read
}

// Plans a rule's answer: its rows are listed by their codes, with eight words of marks each for a join; nothing else is written.
pub(crate) fn plan(
    rule: Rule,
    lists: [&[u8]; 2],
    shape: Shape,
    labels: [&[u8]; 2],
    at: [&[usize]; 2],
    keys: [&[usize]; 2],
    rows: [&[u64]; 2],
    codes: &mut [usize],
    marks: &mut [usize],
) -> Result<usize, Twice>
    requires both_held { let s = sides (shape_of shape) labels at keys rows in BothHeld s }
    requires codes_len { length codes.old ≡ max_series }
    requires marks_len { length marks.old ≡ 4096 }
    requires clean { Clean 0 marks.old }
    ensures { let s = sides (shape_of shape) labels.entry at.entry keys.entry rows.entry in
        RulePlanned rule (lent lists.entry 0) (lent lists.entry 1) s codes.old codes.new
        marks.new result }
{
    match rule {
        Rule::Pairs(q) => pair_plan::plan_pairs(q.allowance, shape.points, keys, rows, codes),
        Rule::Join(w) => {
            join_plan::plan_join(w, lists, shape, labels, at, keys, rows, codes, marks)
        }
        Rule::Set(op) => { Ok(set_plan::plan_set(op, shape, labels, at, keys, rows, codes)) }
        Rule::Groups(g) => Ok(group_plan::plan_groups(keys[0], codes)),
    }
}

// The record of a group of the first side's series: that of its first.
fn group_record<'a>(array: &'a [u8], at: &[usize], code: usize) -> &'a [u8]
    requires positions { Positions array.now at.now }
    requires code_in_bounds { side_first code + 1 < length at.now }
    ensures { result.now ≡ record_at array.now at.now (side_first code) }
{
    side_parts::record(array, at, end_codes::side_first(code))
}

// The size of the record of a code.
pub(crate) fn record_size(
    rule: Rule,
    lists: [&[u8]; 2],
    labels: [&[u8]; 2],
    at: [&[usize]; 2],
    code: usize,
) -> Size
    requires both_formed { let s = labelled labels at in BothFormed s }
    requires record_in { let s = labelled labels at in RecordIn rule s code }
    ensures { let s = labelled labels.entry at.entry in
        SizedRecord (rule_labels rule (lent lists.entry 0) (lent lists.entry 1) s code) result }
{
    match rule {
        Rule::Pairs(q) => pair_records::pair_record_size(q, lists[0], labels[0], at[0], code),
        Rule::Join(w) => {
            let naming = w.naming;
            join_records::join_record_size(naming, lists, labels, at, code)
        }
        Rule::Set(op) => set_records::set_record_size(labels, at, code),
        Rule::Groups(g) => {
            let rec = group_record(labels[0], at[0], code);
            let matching = g.matching;
            kept_labels::kept_size(rec, matching, lists[0], g.named)
        }
    }
}

// Writes the record of a code, and gives the place behind it.
pub(crate) fn put_record(
    rule: Rule,
    lists: [&[u8]; 2],
    labels: [&[u8]; 2],
    at: [&[usize]; 2],
    code: usize,
    out: &mut [u8],
    o: usize,
) -> usize
    requires both_formed { let s = labelled labels at in BothFormed s }
    requires record_in { let s = labelled labels at in RecordIn rule s code }
    requires label_room { let s = labelled labels at in
        LabelRoom (rule_labels rule (lent lists 0) (lent lists 1) s code) o (length out.old) }
    ensures { let s = labelled labels.entry at.entry in
        Put out.old o (encode (rule_labels rule (lent lists.entry 0) (lent lists.entry 1) s code))
        out.new result }
{
    match rule {
        Rule::Pairs(q) => {
            pair_records::put_pair_record(q, lists[0], labels[0], at[0], code, out, o)
        }
        Rule::Join(w) => {
            let naming = w.naming;
            join_records::put_join_record(naming, lists, labels, at, code, out, o)
        }
        Rule::Set(op) => set_records::put_set_record(labels, at, code, out, o),
        Rule::Groups(g) => {
            let rec = group_record(labels[0], at[0], code);
            let matching = g.matching;
            kept_labels::put_kept(out, o, rec, matching, lists[0], g.named)
        }
    }
}

// Writes the row of a code, by its eight words of marks. Work rows and the list of places are lent.
pub(crate) fn put_row(
    rule: Rule,
    keys: [&[usize]; 2],
    rows: [&[u64]; 2],
    code: usize,
    marks: &[usize],
    left_work: &mut [u64],
    right_work: &mut [u64],
    places: &mut [usize],
    out: &mut [u64],
)
    requires both_rows_held { let s = unlabelled (length out.old) keys rows in BothRowsHeld s }
    requires code_in { let s = unlabelled (length out.old) keys rows in CodeIn rule s code }
    requires in_bounds { 8 ≤ length marks.now }
    requires work_room { WorkRoom (length out.old) left_work.old right_work.old places.old }
    ensures out_after { let s = unlabelled (length out.old) keys.entry rows.entry in out.new ≡ rule_row rule s marks.now code }
    ensures work_kept { WorkKept left_work.old right_work.old places.old left_work.new
        right_work.new places.new }
{
    match rule {
        Rule::Pairs(q) => {
            let op = q.operator;
            pair_series::put_pair_row(op, q.as_bool, keys, rows, code, left_work, right_work, out)
        }
        Rule::Join(w) => join_series::put_join_row(w, keys, rows, code, marks, left_work, out),
        Rule::Set(op) => set_series::put_set_row(op, keys, rows, code, places, out),
        Rule::Groups(g) => {
            let aggregate = g.aggregate;
            group_series::put_group_row(
                aggregate, keys[0], rows[0], code, left_work, right_work, places, out,
            )
        }
    }
}
