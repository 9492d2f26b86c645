// What the program prints for an outcome, written into a lent buffer.
ghost use Rattle.std.specs.Prelude.{◌+◌, ◌*◌, ◌≤◌, length};
ghost use Rattle.writing.specs.Written.{Put};
ghost use Rattle.record_tags.specs.Lenient.{labels_of};
ghost use Rattle.side_parts.specs.Lent.{shape_of};
ghost use Rattle.answers.specs.Outcomes.{told};
ghost use Rattle.vecop_run.specs.outcome_text.Text.{reading_text, row_text, line_text, lines_text, two_numbers};
ghost use Rattle.vecop_run.specs.outcome_text.Text.{number_text, sizes_text, answer_text, refusal_text, unreadable_text};
ghost use Rattle.vecop_run.specs.outcome_text.Told.{told_text, Within};

use crate::label_text::put_labels;
use answers::{Answer, Numbers, Outcome};
use numerals::{put_decimal, put_digits};
use side_parts::Shape;
use writing::{put_byte, put_bytes};

fn put_reading(out: &mut [u8], at: usize, x: u64) -> usize
    requires { at + length (reading_text x) ≤ length out.old }
    ensures { Put out.old at (reading_text x) out.new result }
{
    let o = put_byte(out, at, b' ');
    put_digits(out, o, 16, 16, x)
}

fn put_row(out: &mut [u8], at: usize, row: &[u64]) -> usize
    requires { at + length (row_text row.now) ≤ length out.old }
    ensures { Put out.old at (row_text row.now) out.new result }
{
    let mut o = at;
    for x in row {
        o = put_reading(out, o, *x);
    }
    o
}

fn put_line(out: &mut [u8], at: usize, rec: &[u8], row: &[u64]) -> usize
    requires { at + length (line_text (labels_of rec.now) row.now) ≤ length out.old }
    ensures { Put out.old at (line_text (labels_of rec.now) row.now) out.new result }
{
    let o = put_labels(out, at, rec);
    let p = put_row(out, o, row);
    put_byte(out, p, b'\n')
}

// A line a series: the records one behind another, and rows of p readings.
fn put_lines(
    out: &mut [u8],
    at: usize,
    n: usize,
    p: usize,
    labels: &[u8],
    readings: &[u64],
) -> usize
    requires readings_in_bounds { at + length (lines_text n p labels.now readings.now) ≤ length out.old }
    requires p_in_bounds { n * p ≤ length readings.now }
    ensures { Put out.old at (lines_text n p labels.now readings.now) out.new result }
{
    let mut o = at;
    let mut from: usize = 0;
    let mut row: usize = 0;
    for _ in 0..n {
        let Ok(next) = label_records::read_record(labels, from) else {
            return o;
        };
        let end = row + p;
        o = put_line(out, o, &labels[from..next], &readings[row..end]);
        from = next;
        row = end;
    }
    o
}

fn put_two(out: &mut [u8], at: usize, a: usize, b: usize) -> usize
    requires { at + length (two_numbers a b) ≤ length out.old }
    ensures { Put out.old at (two_numbers a b) out.new result }
{
    let p = put_decimal(out, at, a as u64);
    let q = put_byte(out, p, b' ');
    let r = put_decimal(out, q, b as u64);
    put_byte(out, r, b'\n')
}

fn put_number(out: &mut [u8], at: usize, a: usize) -> usize
    requires { at + length (number_text a) ≤ length out.old }
    ensures { Put out.old at (number_text a) out.new result }
{
    let p = put_decimal(out, at, a as u64);
    put_byte(out, p, b' ')
}

fn put_sizes(out: &mut [u8], at: usize, n: usize, shape: Shape) -> usize
    requires { at + length (sizes_text n (shape_of shape)) ≤ length out.old }
    ensures { Put out.old at (sizes_text n (shape_of shape)) out.new result }
{
    let p = put_number(out, at, n);
    let q = put_number(out, p, shape.points);
    put_two(out, q, shape.start, shape.step)
}

fn put_answer(out: &mut [u8], n: usize, shape: Shape, labels: &[u8], readings: &[u64]) -> usize
    requires readings_in_bounds { length (answer_text n (shape_of shape) labels.now readings.now) ≤ length out.old }
    requires points_in_bounds { n * shape.points ≤ length readings.now }
    ensures { Put out.old 0 (answer_text n (shape_of shape) labels.now readings.now)
        out.new result }
{
    let o = put_bytes(out, 0, b"answer ");
    let q = put_sizes(out, o, n, shape);
    put_lines(out, q, n, shape.points, labels, readings)
}

fn put_refusal(out: &mut [u8], number: usize, a: usize, b: usize) -> usize
    requires { length (refusal_text number a b) ≤ length out.old }
    ensures { Put out.old 0 (refusal_text number a b) out.new result }
{
    let o = put_bytes(out, 0, b"refused ");
    let p = put_number(out, o, number);
    put_two(out, p, a, b)
}

// Writes the text of an outcome, whose answer stands at the start of the output parts, and gives its length.
pub(crate) fn put_outcome(out: &mut [u8], x: Outcome, labels: &[u8], readings: &[u64]) -> usize
    requires within { Within (told x) labels.now readings.now }
    requires readings_in_bounds { length (told_text (told x) labels.now readings.now) ≤ length out.old }
    ensures { Put out.old 0 (told_text (told x) labels.now readings.now) out.new result }
{
    match answers::told_as(x) {
        Ok(
            Answer {
                series,
                shape,
                bytes,
            },
        ) => {
            let k = series * shape.points;
            put_answer(out, series, shape, &labels[..bytes], &readings[..k])
        }
        Err(
            Numbers {
                number,
                first,
                second,
            },
        ) => put_refusal(out, number, first, second),
    }
}

pub(crate) fn put_unreadable(out: &mut [u8]) -> usize
    requires { 11 ≤ length out.old }
    ensures { Put out.old 0 unreadable_text out.new result }
{
    put_bytes(out, 0, b"unreadable\n")
}
