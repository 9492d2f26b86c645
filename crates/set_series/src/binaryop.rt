// The set rules on two readings.
ghost use Rattle.std.specs.Prelude.{◌≡◌};
ghost use Rattle.operator.specs.Kinds.{where_found, where_none, filled};
ghost use Rattle.set_series.specs.set_points.Points.{on_reading};

// The left reading where the right one is there: `and`, `if`.
pub(crate) fn op_if(left: u64, right: u64) -> u64
    ensures { result ≡ on_reading where_found left right }
{
    reading::choose(reading::gap(right), reading::MISSING, left)
}

// The left reading where the right one is missing: `unless`, `ifnot`.
pub(crate) fn op_if_not(left: u64, right: u64) -> u64
    ensures { result ≡ on_reading where_none left right }
{
    reading::choose(reading::gap(right), left, reading::MISSING)
}

// The left reading, filled from the right one where it is missing: `or`, `default`.
pub(crate) fn op_default(left: u64, right: u64) -> u64
    ensures { result ≡ on_reading filled left right }
{
    reading::choose(reading::gap(left) & (1 - reading::gap(right)), right, left)
}
