// The driver of every family: the answer's rows are planned, their records tallied and their room tested; then they are written. Nothing is
// written before, so a refusal leaves the output parts as they were.
#![tactic(auto)]

mod families; // a rule's plan, and the record and the row of a code, each by a match

ghost use Rattle.std.specs.Prelude.{◌≡◌, false, ℕ, ◌*◌, ◌≤◌, length};
ghost use Rattle.model.specs.Lists.{gather};
ghost use Rattle.model.specs.Labels.{Labels};
ghost use Rattle.side_parts.specs.Lent.{sides, shape_of, lent, labelled, unlabelled, BothHeld, BothFormed, BothRowsHeld};
ghost use Rattle.answers.specs.Outcomes.{Ran, starting_with};
ghost use Rattle.answers.specs.Tallies.{TallyOf, records_of, RecordsPut, some_wide};
ghost use Rattle.answers.specs.Plans.{up_to};
ghost use Rattle.answering.specs.families.Codes.{rule_labels, plan_row, RecordsIn, CodesIn};
ghost use Rattle.answering.specs.families.Plans.{rule_outcome};

use answers::{Answer, Outcome, Refusal, Tally};
pub use families::{Groups, Rule};
use operator::Operator;
use side_parts::Shape;

// What the records of codes come to.
fn tally(
    rule: Rule,
    lists: [&[u8]; 2],
    labels: [&[u8]; 2],
    at: [&[usize]; 2],
    codes: &[usize],
) -> Tally
    requires both_formed { let s = labelled labels at in BothFormed s }
    requires records_in { let s = labelled labels at in RecordsIn rule s codes.now }
    ensures { let s = labelled labels.entry at.entry in
        TallyOf (rule_labels rule (lent lists.entry 0) (lent lists.entry 1) s) codes.now result }
{
    let mut t = Tally {
        bytes: 0,
        too_many_tags: false,
    };
    for code in codes {
        t = answers::tallied(t, families::record_size(rule, lists, labels, at, *code));
    }
    t
}

// Writes the records of codes one behind another, and gives their bytes.
fn put_records(
    rule: Rule,
    lists: [&[u8]; 2],
    labels: [&[u8]; 2],
    at: [&[usize]; 2],
    codes: &[usize],
    out: &mut [u8],
) -> usize
    requires both_formed { let s = labelled labels at in BothFormed s }
    requires records_in { let s = labelled labels at in RecordsIn rule s codes.now }
    requires codes_value { let s = labelled labels at in
        some_wide (rule_labels rule (lent lists 0) (lent lists 1) s) codes.now ≡ false }
    requires codes_in_bounds { let s = labelled labels at in
        length (records_of (rule_labels rule (lent lists 0) (lent lists 1) s) codes.now) ≤ length out.old }
    ensures { let s = labelled labels.entry at.entry in
        RecordsPut (rule_labels rule (lent lists.entry 0) (lent lists.entry 1) s) codes.now out.old
        out.new result }
{
    let mut o: usize = 0;
    for code in codes {
        o = families::put_record(rule, lists, labels, at, *code, out, o);
    }
    o
}

// Writes the rows of codes, each into its own part. Work rows are made here, once a call.
fn put_rows(
    rule: Rule,
    p: usize,
    keys: [&[usize]; 2],
    rows: [&[u64]; 2],
    codes: &[usize],
    marks: &[usize],
    out: &mut [u64],
)
    requires both_rows_held { let s = unlabelled p keys rows in BothRowsHeld s }
    requires codes_in { let s = unlabelled p keys rows in CodesIn rule s codes.now }
    requires codes_in_bounds { length codes.now * 8 ≤ length marks.now }
    requires p_in_bounds { length codes.now * p ≤ length out.old }
    ensures { let s = unlabelled p keys.entry rows.entry in
        out.new ≡ starting_with
        (gather (plan_row rule s codes.now marks.now) (up_to (length codes.now)))
        out.old }
{
    let mut left_work = [0u64; 1024];
    let mut right_work = [0u64; 1024];
    let mut places = [0usize; 1024];
    for k in 0..codes.len() {
        let first = k * 8;
        let last = first + 8;
        let from = k * p;
        let to = from + p;
        families::put_row(
            rule,
            keys,
            rows,
            codes[k],
            &marks[first..last],
            &mut left_work,
            &mut right_work,
            &mut places,
            &mut out[from..to],
        );
    }
}

// Runs a rule on two sides with their key numbers.
pub fn run(
    rule: Rule,
    lists: [&[u8]; 2],
    shape: Shape,
    labels: [&[u8]; 2],
    at: [&[usize]; 2],
    keys: [&[usize]; 2],
    rows: [&[u64]; 2],
    out_labels: &mut [u8],
    out: &mut [u64],
) -> Outcome
    requires { let s = sides (shape_of shape) labels at keys rows in BothHeld s }
    ensures { let s = sides (shape_of shape) labels.entry at.entry keys.entry rows.entry in
        Ran
        (rule_outcome rule (lent lists.entry 0) (lent lists.entry 1) (length out_labels.old)
        (length out.old) s)
        out_labels.old out.old out_labels.new out.new result }
{
    let mut codes = [0usize; 512];
    let mut marks = [0usize; 4096];
    let n = families::plan(
        rule, lists, shape, labels, at, keys, rows, &mut codes, &mut marks,
    )?;
    if Operator::MAX_SERIES < n {
        return Err(Refusal::TooLarge);
    }
    let p = shape.points;
    let listed = &codes[..n];
    let t = tally(rule, lists, labels, at, listed);
    answers::room_for(n, p, t, out_labels.len(), out.len())?;
    put_rows(rule, p, keys, rows, listed, &marks, out);
    let bytes = put_records(rule, lists, labels, at, listed, out_labels);
    Ok(Answer {
        series: n,
        shape,
        bytes,
    })
}
