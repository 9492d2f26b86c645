// The series of a vector: the first that the format cannot carry; their lines, measured and written.
ghost use Rattle.std.specs.Prelude.{◌≡◌, ◌+◌, ◌-◌, ◌≤◌, ◌<◌, length};
ghost use Rattle.model.specs.Vector.{GoodGrid};
ghost use Rattle.exposition.specs.Faults.{first_fault};
ghost use Rattle.exposition.specs.Text.{labels_text, lines_text, series_text};
ghost use Rattle.writing.specs.Written.{Put};
ghost use Rattle.writing.specs.Measured.{Measured};
ghost use Rattle.record_tags.specs.Lenient.{labels_of};
ghost use Rattle.side_parts.specs.Sides.{record_at, row_at, lent_series};
ghost use Rattle.side_parts.specs.Lent.{shape_of};
ghost use Rattle.keyed_sides.specs.TakenSides.{TakenSide};
ghost use Rattle.export_text.specs.Found.{fault_found};

use crate::series_lines::{lines_size, put_lines};
use exposed_faults::{Unfit, fit_of};
use side_parts::{Shape, record, row};

// A series at fault, by its place.
#[derive(Clone, Copy, Debug, PartialEq, Eq)]
pub(crate) struct Fault {
    pub(crate) unfit: Unfit,
    pub(crate) place: usize,
}

// The first series at fault.
pub(crate) fn first_fault(array: &[u8], at: &[usize], p: usize, rows: &[u64]) -> Result<(), Fault>
    requires { TakenSide p array.now at.now rows.now }
    ensures { fault_found result ≡ first_fault 0 (lent_series array.now at.now p rows.now) }
{
    for place in 0..at.len() - 1 {
        if let Err(unfit) = fit_of(record(array, at, place), row(rows, p, place)) {
            return Err(Fault { unfit, place });
        }
    }
    Ok(())
}

pub(crate) fn text_size(array: &[u8], at: &[usize], shape: Shape, rows: &[u64]) -> usize
    requires taken_side { TakenSide shape.points array.now at.now rows.now }
    requires good_grid { GoodGrid (shape_of shape) }
    ensures { Measured
        (series_text (shape_of shape) (lent_series array.now at.now shape.points rows.now))
        26422798188544 result }
{
    let mut size: usize = 0;
    for i in 0..at.len() - 1 {
        size += lines_size(record(array, at, i), shape, row(rows, shape.points, i));
    }
    size
}

// The lines of series i.
fn put_series(
    out: &mut [u8],
    o: usize,
    array: &[u8],
    at: &[usize],
    shape: Shape,
    rows: &[u64],
    i: usize,
) -> usize
    requires taken_side { TakenSide shape.points array.now at.now rows.now }
    requires good_grid { GoodGrid (shape_of shape) }
    requires i_in_bounds { i < length at.now - 1 }
    requires i_in_bounds_2 { o + length (lines_text (labels_text (labels_of (record_at array.now at.now i))) (shape_of shape) 0
        (row_at shape.points rows.now i)) ≤ length out.old }
    ensures { Put out.old o
        (lines_text (labels_text (labels_of (record_at array.now at.now i))) (shape_of shape) 0
        (row_at shape.points rows.now i))
        out.new result }
{
    put_lines(
        out,
        o,
        record(array, at, i),
        shape,
        row(rows, shape.points, i),
    )
}

pub(crate) fn put_text(
    out: &mut [u8],
    array: &[u8],
    at: &[usize],
    shape: Shape,
    rows: &[u64],
) -> usize
    requires taken_side { TakenSide shape.points array.now at.now rows.now }
    requires good_grid { GoodGrid (shape_of shape) }
    requires rows_in_bounds { length (series_text (shape_of shape) (lent_series array.now at.now shape.points rows.now))
        ≤ length out.old }
    ensures { Put out.old 0
        (series_text (shape_of shape) (lent_series array.now at.now shape.points rows.now))
        out.new result }
{
    let mut o: usize = 0;
    for i in 0..at.len() - 1 {
        o = put_series(out, o, array, at, shape, rows, i);
    }
    o
}
