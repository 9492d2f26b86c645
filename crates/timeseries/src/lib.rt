// Vectors: taken from bytes and readings.
#![tactic(auto)]

mod label_reader; // a reader that borrows the label array
mod record_walk; // the records of a label array, walked by it

ghost use Rattle.std.specs.Prelude.{◌≡◌, not, ◌≤◌, length};
ghost use Rattle.model.specs.Limits.{sizes_length};
ghost use Rattle.model.specs.Vector.{shape_in, good_grid};
ghost use Rattle.side_parts.specs.Lent.{shape_of};
ghost use Rattle.timeseries.specs.Takes.{TakenInto};

use operator::Operator;
use side_parts::Shape;

// The points and the grid that sizes state.
fn shape_in(labels: &[u8]) -> Shape
    requires { sizes_length ≤ length labels.now }
    ensures { shape_of result ≡ shape_in labels.now }
{
    Shape {
        points: little_endian::two_bytes_at(labels, 2) as usize,
        start: little_endian::eight_bytes_at(labels, 6) as usize,
        step: little_endian::four_bytes_at(labels, 14) as usize,
    }
}

// Whether start or step is outside its range.
fn off_grid(shape: Shape) -> bool
    ensures { result ≡ not (good_grid (shape_of shape)) }
{
    Operator::MAX_START < shape.start || shape.step < 1 || Operator::MAX_STEP < shape.step
}

// A vector that is taken: how many series it has, their points and their grid.
#[derive(Clone, Copy)]
pub struct Vector {
    pub series: usize,
    pub shape: Shape,
}

// Why a vector is refused: its sizes or a record are cut, a key of a record is bad, its readings are not as many as its
// sizes state, or its grid is out of range. With the place of the series, 0 where the sizes are at fault.
#[derive(Clone, Copy, Debug, PartialEq, Eq)]
pub enum VectorFault {
    Cut(usize),
    BadKey(usize),
    Readings,
    BadGrid,
}

// Takes a vector: a label part, which begins with the sizes, and its readings. Notes where the records start.
pub fn take_vector(
    labels: &[u8],
    readings: &[u64],
    at: &mut [usize; 513],
) -> Result<Vector, VectorFault>
    ensures { TakenInto labels.now readings.now at.old result at.new }
{
    if labels.len() < Operator::SIZES_LENGTH {
        return Err(VectorFault::Cut(0));
    }
    let series = little_endian::two_bytes_at(labels, 0) as usize;
    let shape = shape_in(labels);
    let size = little_endian::two_bytes_at(labels, 4) as usize;
    if Operator::MAX_SERIES < series || Operator::MAX_POINTS < shape.points {
        return Err(VectorFault::Cut(0));
    }
    if off_grid(shape) {
        return Err(VectorFault::BadGrid);
    }
    if labels.len() - Operator::SIZES_LENGTH != size {
        return Err(VectorFault::Cut(0));
    }
    record_walk::walk_records(&labels[Operator::SIZES_LENGTH..], series, at)?;
    if readings.len() != series * shape.points {
        return Err(VectorFault::Readings);
    }
    Ok(Vector { series, shape })
}
