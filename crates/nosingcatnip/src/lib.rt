// The library for callers in C and Rust: functions on numbers and slices.
#![tactic(auto)]

ghost use Rattle.std.specs.Prelude.{◌≡◌, [], ◌∷◌, length};
ghost use Rattle.std.proofs.lemmas.List.Edits.{sets};
ghost use Rattle.semantics.specs.Call.{call};
ghost use Rattle.semantics.specs.Aggregates.{aggregate_call};
ghost use Rattle.semantics.specs.Exposition.{export};
ghost use Rattle.answers.specs.Outcomes.{told};
ghost use Rattle.nosingcatnip.specs.Reports.{numbers_of, Reported, export_numbers, ExportReported};

use answers::{Numbers, Outcome};
use side_parts::Shape;

// What is told of a refusal's shape.
const NONE: Shape = Shape {
    points: 0,
    start: 0,
    step: 0,
};

// What an outcome is in eight numbers: number and fields of a refusal, then series, points, start, step and label bytes of
// an answer.
fn report(outcome: Outcome, res: &mut [u64; 8])
    ensures { res.new ≡ sets res.old 0 (numbers_of (told outcome)) }
{
    match answers::told_as(outcome) {
        Ok(answer) => put(res, 0, 0, 0, answer.series, answer.shape, answer.bytes),
        Err(told) => put(res, told.number, told.first, told.second, 0, NONE, 0),
    }
}

fn put(
    res: &mut [u64; 8],
    number: usize,
    first: usize,
    second: usize,
    series: usize,
    shape: Shape,
    bytes: usize,
)
    ensures { res.new ≡ sets res.old 0
        (number ∷ first ∷ second ∷ series ∷ shape.points ∷ shape.start ∷ shape.step ∷ bytes ∷ []) }
{
    res[0] = number as u64;
    res[1] = first as u64;
    res[2] = second as u64;
    res[3] = series as u64;
    res[4] = shape.points as u64;
    res[5] = shape.start as u64;
    res[6] = shape.step as u64;
    res[7] = bytes as u64;
}

// Runs a query over two vectors; all eight numbers of the result are written.
#[unsafe(no_mangle)]
pub extern "C" fn nosingcatnip_exec_binop<'a>(
    query: &[u8],
    left_labels: &'a [u8],
    left: &'a [u64],
    right_labels: &'a [u8],
    right: &'a [u64],
    out_labels: &mut [u8],
    out: &mut [u64],
    res: &mut [u64; 8],
)
    ensures { Reported
        (call query.now left_labels.now left.now right_labels.now
        right.now (length out_labels.old) (length out.old))
        out_labels.old out.old out_labels.new out.new res.old
        res.new }
{
    let outcome = binop_vector_vector::exec_binop(
        query,
        left_labels,
        left,
        right_labels,
        right,
        out_labels,
        out,
    );
    report(outcome, res);
}

// Runs a request for an aggregate over a vector; all eight numbers of the result are written.
#[unsafe(no_mangle)]
pub extern "C" fn nosingcatnip_exec_aggregate(
    request: &[u8],
    labels: &[u8],
    readings: &[u64],
    out_labels: &mut [u8],
    out: &mut [u64],
    res: &mut [u64; 8],
)
    ensures { Reported
        (aggregate_call request.now labels.now readings.now
        (length out_labels.old) (length out.old))
        out_labels.old out.old out_labels.new out.new res.old
        res.new }
{
    let outcome = aggregate_vector::exec_aggregate(request, labels, readings, out_labels, out);
    report(outcome, res);
}

// What an export is in four numbers: number and fields of a refusal, then the length of a text.
fn report_export(exported: Result<usize, Numbers>, res: &mut [u64; 4])
    ensures { res.new ≡ sets res.old 0 (export_numbers exported) }
{
    match exported {
        Ok(bytes) => put_four(res, 0, 0, 0, bytes),
        Err(told) => put_four(res, told.number, told.first, told.second, 0),
    }
}

fn put_four(res: &mut [u64; 4], number: usize, first: usize, second: usize, bytes: usize)
    ensures { res.new ≡ sets res.old 0 (number ∷ first ∷ second ∷ bytes ∷ []) }
{
    res[0] = number as u64;
    res[1] = first as u64;
    res[2] = second as u64;
    res[3] = bytes as u64;
}

// Exports a vector as text; all four numbers of the result are written.
#[unsafe(no_mangle)]
pub extern "C" fn nosingcatnip_export_text(
    labels: &[u8],
    readings: &[u64],
    out: &mut [u8],
    res: &mut [u64; 4],
)
    ensures { ExportReported (export labels.now readings.now (length out.old))
        out.old out.new res.old res.new }
{
    let exported = export_text::export_text(labels, readings, out);
    report_export(exported, res);
}
