// The running aggregates of a row of points, in four parts: the bits of the sums, of the lowest and of the highest
// readings, and the counts.
ghost use Rattle.std.specs.Prelude.{◌≡◌, ◌<◌, ◌≤◌, length, slice_index};
ghost use Rattle.model.specs.Limits.{max_series};
ghost use Rattle.query.specs.aggregations.Requests.{aggregate_of};
ghost use Rattle.group_series.specs.running.Running.{meant, Own, Solid};
ghost use Rattle.group_series.specs.points.Points.{points, point_at, put_at, Room, Ready};
ghost use Rattle.group_series.specs.points.Points.{IncludedAt, Begun, RowIncluded, ReadingsPut};

use crate::running;
use crate::running::Running;
use query::Aggregate;

// The running aggregate at the point i.
fn point(lowest: &[u64], highest: &[u64], counts: &[usize], sums: &[u64], i: usize) -> Running
    requires i_in_bounds { i < length sums.now }
    requires room { Room (points sums.now lowest.now highest.now counts.now) }
    requires solid { Solid (point_at (points sums.now lowest.now highest.now counts.now) i) }
    requires own { Own (slice_index sums.now i) }
    ensures { meant result
        ≡ point_at (points sums.now lowest.now highest.now counts.now) i }
{
    Running {
        sum: running::own_float(sums[i]),
        lowest: f64::from_bits(lowest[i]),
        highest: f64::from_bits(highest[i]),
        count: counts[i],
    }
}

// Writes the running aggregate at the point i.
fn put_point(
    t: Running,
    i: usize,
    lowest: &mut [u64],
    highest: &mut [u64],
    counts: &mut [usize],
    sums: &mut [u64],
)
    requires i_in_bounds { i < length sums.old }
    requires room { Room (points sums.old lowest.old highest.old counts.old) }
    requires solid { Solid (meant t) }
    ensures { points sums.new lowest.new highest.new counts.new
        ≡ put_at (points sums.old lowest.old highest.old counts.old)
        i (meant t) }
{
    sums[i] = reading::written(t.sum);
    lowest[i] = f64::to_bits(t.lowest);
    highest[i] = f64::to_bits(t.highest);
    counts[i] = t.count;
}

// One more reading at the point i, which may be missing.
fn include_at(
    x: u64,
    i: usize,
    lowest: &mut [u64],
    highest: &mut [u64],
    counts: &mut [usize],
    sums: &mut [u64],
)
    requires i_in_bounds { i < length sums.old }
    requires room { Room (points sums.old lowest.old highest.old counts.old) }
    requires solid { Solid (point_at (points sums.old lowest.old highest.old counts.old) i) }
    requires own { Own (slice_index sums.old i) }
    requires i_bound { slice_index counts.old i ≤ max_series }
    ensures { IncludedAt x i (points sums.old lowest.old highest.old counts.old)
        (points sums.new lowest.new highest.new counts.new) }
{
    let t = point(lowest, highest, counts, sums, i).with_reading(x);
    put_point(t, i, lowest, highest, counts, sums);
}

// No present reading yet at any point.
pub(crate) fn begin(lowest: &mut [u64], highest: &mut [u64], counts: &mut [usize], sums: &mut [u64])
    requires { Room (points sums.old lowest.old highest.old counts.old) }
    ensures { Begun (points sums.old lowest.old highest.old counts.old)
        (points sums.new lowest.new highest.new counts.new) }
{
    for i in 0..sums.len() {
        put_point(Running::new(), i, lowest, highest, counts, sums);
    }
}

// One more row: one more reading at each point.
pub(crate) fn include_row(
    row: &[u64],
    lowest: &mut [u64],
    highest: &mut [u64],
    counts: &mut [usize],
    sums: &mut [u64],
)
    requires row_len { length row.now ≡ length sums.old }
    requires room { Room (points sums.old lowest.old highest.old counts.old) }
    requires ready { Ready max_series (points sums.old lowest.old highest.old counts.old) }
    ensures { RowIncluded row.now
        (points sums.old lowest.old highest.old counts.old)
        (points sums.new lowest.new highest.new counts.new) }
{
    for i in 0..sums.len() {
        include_at(row[i], i, lowest, highest, counts, sums);
    }
}

// The reading of an aggregate at each point, written over the sums.
pub(crate) fn put_readings(
    aggregate: Aggregate,
    lowest: &[u64],
    highest: &[u64],
    counts: &[usize],
    sums: &mut [u64],
)
    requires room { Room (points sums.old lowest.now highest.now counts.now) }
    requires ready { Ready max_series (points sums.old lowest.now highest.now counts.now) }
    ensures { ReadingsPut (aggregate_of aggregate)
        (points sums.old lowest.now highest.now counts.now)
        sums.new }
{
    for i in 0..sums.len() {
        sums[i] = point(lowest, highest, counts, sums, i).reading_of(aggregate);
    }
}
