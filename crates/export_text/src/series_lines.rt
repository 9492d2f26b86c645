// The lines of a series: measured, and written at a place of a lent part. Their labels are written once, and then copied.
ghost use Rattle.std.specs.Prelude.{◌≡◌, ◌+◌, ◌≤◌, length, take, drop};
ghost use Rattle.model.specs.Vector.{GoodGrid};
ghost use Rattle.exposition.specs.Text.{labels_text, line_text, time_of, lines_text};
ghost use Rattle.writing.specs.Written.{Put};
ghost use Rattle.writing.specs.Measured.{Measured};
ghost use Rattle.record_tags.specs.Lenient.{labels_of};
ghost use Rattle.side_parts.specs.Lent.{shape_of};
ghost use Rattle.export_text.specs.Lines.{LineSize, FirstPresent};

use exposed_labels::{labels_size, put_labels};
use exposed_samples::{put_sample, sample_size};
use reading::is_missing;
use side_parts::Shape;
use writing::put_again;

// A line whose labels take so many bytes.
fn line_size(head: usize, time: usize, x: u64) -> usize
    requires { head ≤ 50397440 }
    ensures { LineSize head time x result }
{
    if is_missing(x) {
        return 0;
    }
    head + sample_size(time as u64, x)
}

// The time of reading i.
fn time_of(shape: Shape, i: usize) -> usize
    requires good_grid { GoodGrid (shape_of shape) }
    requires i_bound { i ≤ 1024 }
    ensures { result ≡ time_of (shape_of shape) i }
{
    shape.start + i * shape.step
}

pub(crate) fn lines_size(rec: &[u8], shape: Shape, row: &[u64]) -> usize
    requires rec_len_bound { length rec.now ≤ 65535 }
    requires good_grid { GoodGrid (shape_of shape) }
    requires row_len_bound { length row.now ≤ 1024 }
    ensures { Measured (lines_text (labels_text (labels_of rec.now)) (shape_of shape) 0 row.now) 51607027712 result }
{
    let head = labels_size(rec);
    let mut n: usize = 0;
    for (i, x) in row.iter().enumerate() {
        n += line_size(head, time_of(shape, i), *x);
    }
    n
}

// The place of the first present reading.
fn first_present(row: &[u64]) -> Option<usize>
    ensures { FirstPresent row.now result }
{
    row.iter().position(|x| !is_missing(*x))
}

// A line behind one of the same series, whose labels stand at a place and take n bytes.
fn put_line(out: &mut [u8], at: usize, from: usize, n: usize, time: usize, x: u64) -> usize
    requires n_bound { from + n ≤ at }
    requires x_in_bounds { at + length (line_text (take n (drop from out.old)) time x) ≤ length out.old }
    ensures { Put out.old at (line_text (take n (drop from out.old)) time x) out.new result }
{
    if is_missing(x) {
        return at;
    }
    let o = put_again(out, at, from, n);
    put_sample(out, o, time as u64, x)
}

// The lines from reading k on, behind one of the same series.
fn put_more_lines(
    out: &mut [u8],
    at: usize,
    from: usize,
    n: usize,
    shape: Shape,
    k: usize,
    row: &[u64],
) -> usize
    requires n_bound { from + n ≤ at }
    requires good_grid { GoodGrid (shape_of shape) }
    requires k_in_bounds { k ≤ length row.now }
    requires row_len_bound { length row.now ≤ 1024 }
    requires row_in_bounds { at + length (lines_text (take n (drop from out.old)) (shape_of shape) k (drop k row.now)) ≤ length out.old }
    ensures { Put out.old at
        (lines_text (take n (drop from out.old)) (shape_of shape) k (drop k row.now))
        out.new result }
{
    let mut o = at;
    for i in k..row.len() {
        o = put_line(out, o, from, n, time_of(shape, i), row[i]);
    }
    o
}

pub(crate) fn put_lines(out: &mut [u8], at: usize, rec: &[u8], shape: Shape, row: &[u64]) -> usize
    requires good_grid { GoodGrid (shape_of shape) }
    requires row_len_bound { length row.now ≤ 1024 }
    requires row_in_bounds { at + length (lines_text (labels_text (labels_of rec.now)) (shape_of shape) 0 row.now) ≤ length out.old }
    ensures { Put out.old at
        (lines_text (labels_text (labels_of rec.now)) (shape_of shape) 0 row.now)
        out.new result }
{
    let Some(k) = first_present(row) else {
        return at;
    };
    let o = put_labels(out, at, rec);
    let p = put_sample(out, o, time_of(shape, k) as u64, row[k]);
    put_more_lines(out, p, at, o - at, shape, k + 1, row)
}
