// The row of a group of series: the aggregate of their readings, point by point.
#![tactic(auto)]

mod running; // the running aggregate at a point
mod points; // the running aggregates of a row of points

ghost use Rattle.std.specs.Prelude.{◌≡◌, length};
ghost use Rattle.plan.specs.Aggregates.{aggregate_row};
ghost use Rattle.side_parts.specs.Lent.{RowsHeld};
ghost use Rattle.end_codes.specs.Codes.{side_first, side_last};
ghost use Rattle.index_lists.specs.Places.{coded_met};
ghost use Rattle.query.specs.aggregations.Requests.{aggregate_of};
ghost use Rattle.group_series.specs.points.Points.{points, Room, Ready};
ghost use Rattle.group_series.specs.Groups.{RowsIncluded, RowsGathered};

use query::Aggregate;

// Includes the rows from `first` to `last` that have the key of `last`, in order.
fn include_rows(
    keys: &[usize],
    rows: &[u64],
    first: usize,
    last: usize,
    lowest: &mut [u64],
    highest: &mut [u64],
    counts: &mut [usize],
    sums: &mut [u64],
)
    requires rows_held { RowsHeld (length sums.old) rows.now keys.now }
    requires room { Room (points sums.old lowest.old highest.old counts.old) }
    requires ready { Ready 0 (points sums.old lowest.old highest.old counts.old) }
    ensures { RowsIncluded rows.now (coded_met keys.now first last)
        (points sums.old lowest.old highest.old counts.old)
        (points sums.new lowest.new highest.new counts.new) }
{
    if keys.len() <= last {
        return;
    }
    let k = keys[last];
    for i in first..last + 1 {
        if keys[i] == k {
            points::include_row(
                side_parts::row(rows, sums.len(), i),
                lowest,
                highest,
                counts,
                sums,
            );
        }
    }
}

// The rows from `first` to `last` that have the key of `last`, and nothing else.
fn gather_rows(
    keys: &[usize],
    rows: &[u64],
    first: usize,
    last: usize,
    lowest: &mut [u64],
    highest: &mut [u64],
    counts: &mut [usize],
    sums: &mut [u64],
)
    requires rows_held { RowsHeld (length sums.old) rows.now keys.now }
    requires room { Room (points sums.old lowest.old highest.old counts.old) }
    ensures { RowsGathered rows.now (coded_met keys.now first last)
        (points sums.old lowest.old highest.old counts.old)
        (points sums.new lowest.new highest.new counts.new) }
{
    points::begin(lowest, highest, counts, sums);
    include_rows(keys, rows, first, last, lowest, highest, counts, sums);
}

// Writes the row of the group that a code's ends span. The sums are kept in the row itself, the rest in three parts
// that are lent. The rows are read one after another, as they lie.
pub fn put_group_row(
    aggregate: Aggregate,
    keys: &[usize],
    rows: &[u64],
    code: usize,
    lowest: &mut [u64],
    highest: &mut [u64],
    counts: &mut [usize],
    out: &mut [u64],
)
    requires rows_held { RowsHeld (length out.old) rows.now keys.now }
    requires room { Room (points out.old lowest.old highest.old counts.old) }
    ensures out_after { out.new ≡ aggregate_row (aggregate_of aggregate) (length out.old) rows.now
        (coded_met keys.now (side_first code) (side_last code)) out.old }
    ensures lowest_len_unchanged { length lowest.new ≡ length lowest.old }
    ensures highest_len_unchanged { length highest.new ≡ length highest.old }
    ensures counts_len_unchanged { length counts.new ≡ length counts.old }
{
    gather_rows(
        keys,
        rows,
        end_codes::side_first(code),
        end_codes::side_last(code),
        lowest,
        highest,
        counts,
        out,
    );
    points::put_readings(aggregate, lowest, highest, counts, out);
}
