// The export for the shop screen: a vector as text, in the Prometheus text exposition format.
#![tactic(auto)]

mod series_lines; // the lines of a series
mod vector_lines; // the series of a vector: the first at fault, and their lines

ghost use Rattle.std.specs.Prelude.{◌≡◌, Err, length};
ghost use Rattle.model.specs.Vector.{GoodGrid};
ghost use Rattle.exposition.specs.Text.{series_text};
ghost use Rattle.semantics.specs.Exposition.{fitted, export_vector, export};
ghost use Rattle.side_parts.specs.Sides.{lent_series};
ghost use Rattle.side_parts.specs.Lent.{shape_of};
ghost use Rattle.answers.specs.Outcomes.{numbers};
ghost use Rattle.keyed_sides.specs.TakenSides.{TakenSide, lent_vector};
ghost use Rattle.export_text.specs.Exports.{Exports};
ghost use Rattle.exposed_faults.specs.Fits.{fit_number};

use crate::vector_lines::Fault;
use answers::{Numbers, Refusal};
use exposed_faults::Unfit;
use operator::Operator;
use side_parts::Shape;
use vector_faults::fault_of;

impl From<Fault> for Numbers {
    ghost from_gives = { λ fault refused. refused ≡ numbers (fit_number (Err fault.unfit)) 0 fault.place };

    fn from(fault: Fault) -> Numbers {
        let number = match fault.unfit {
            Unfit::BadLabels => 15,
            Unfit::TooLarge => 16,
        };
        Numbers {
            number,
            first: 0,
            second: fault.place,
        }
    }
}

// A vector without faults: the length of its text, where that fits.
fn export_sound(
    array: &[u8],
    at: &[usize],
    shape: Shape,
    rows: &[u64],
    out: &mut [u8],
) -> Result<usize, Numbers>
    requires taken_side { TakenSide shape.points array.now at.now rows.now }
    requires good_grid { GoodGrid (shape_of shape) }
    ensures { Exports
        (fitted (length out.old)
        (series_text (shape_of shape) (lent_series array.now at.now shape.points rows.now)))
        out.old out.new result }
{
    let size = vector_lines::text_size(array, at, shape, rows);
    if out.len() < size {
        return Err(answers::numbers_of(Refusal::TooLong));
    }
    Ok(vector_lines::put_text(out, array, at, shape, rows))
}

// A vector that is taken.
fn export_taken(
    array: &[u8],
    at: &[usize],
    shape: Shape,
    rows: &[u64],
    out: &mut [u8],
) -> Result<usize, Numbers>
    requires taken_side { TakenSide shape.points array.now at.now rows.now }
    requires good_grid { GoodGrid (shape_of shape) }
    ensures { Exports
        (export_vector (length out.old)
        (lent_vector (shape_of shape) array.now at.now rows.now))
        out.old out.new result }
{
    vector_lines::first_fault(array, at, shape.points, rows)?;
    export_sound(array, at, shape, rows, out)
}

// Exports a vector, a label part and its readings: writes the text at the start of the output part, and gives its length;
// or a refusal's number and fields.
pub fn export_text(labels: &[u8], readings: &[u64], out: &mut [u8]) -> Result<usize, Numbers>
    ensures { Exports (export labels.now readings.now (length out.old))
        out.old out.new result }
{
    let mut at = [0usize; 513];
    let vector = match timeseries::take_vector(labels, readings, &mut at) {
        Ok(vector) => vector,
        Err(fault) => return Err(answers::numbers_of(fault_of(0, fault))),
    };
    export_taken(
        &labels[Operator::SIZES_LENGTH..],
        &at[..vector.series + 1],
        vector.shape,
        readings,
        out,
    )
}
