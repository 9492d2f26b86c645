// The shape of a side's rows; the record and the row of a series, as parts of its label array and readings; a row copied.
#![tactic(auto)]

ghost use Rattle.std.specs.Prelude.{◌≡◌, ◌+◌, ◌-◌, ◌*◌, ◌≤◌, ◌<◌, length};
ghost use Rattle.side_parts.specs.Sides.{record_at, row_at, Positions};

// The shape that both sides of a call and its answer have: so many points, and the grid of their times in milliseconds.
#[derive(Clone, Copy)]
pub struct Shape {
    pub points: usize,
    pub start: usize,
    pub step: usize,
}

// The record of series i.
#[tactic(auto, unfolding(crate::specs::Sides::record_at))]
pub fn record<'a>(array: &'a [u8], at: &[usize], i: usize) -> &'a [u8]
    requires positions { Positions array.now at.now }
    requires i_in_bounds { i + 1 < length at.now }
    ensures { result.now ≡ record_at array.now at.now i }
{
    &array[at[i]..at[i + 1]]
}

// The row of series i, of p readings.
pub fn row(rows: &[u64], p: usize, i: usize) -> &[u64]
    requires { i * p + p ≤ length rows.now }
    ensures { result.now ≡ row_at p rows.now i }
{
    &rows[i * p..i * p + p]
}

// Copies a row.
pub fn copy_row(dst: &mut [u64], src: &[u64])
    requires { length src.now ≡ length dst.old }
    ensures { dst.new ≡ src.now }
{
    // By index: `copy_from_slice` would need `memmove` from outside the library.
    for i in 0..dst.len() {
        dst[i] = src[i];
    }
}
