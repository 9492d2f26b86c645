// The running aggregate at a point: one more reading, and the reading that an aggregate gives of it.
ghost use Rattle.std.specs.Prelude.{◌≡◌, ◌≤◌, if◌then◌else◌, from_bits};
ghost use Rattle.std.specs.Float.{binary64};
ghost use Rattle.model.specs.Limits.{max_series};
ghost use Rattle.model.specs.Aggregate.{nothing_yet, started, extended, included, with_reading, reading_in};
ghost use Rattle.query.specs.aggregations.Requests.{aggregate_of};
ghost use Rattle.group_series.specs.running.Running.{meant, Own};

use query::Aggregate;

// What the present readings at a point come to so far. Where the count is 0 there is none, and the floats are not
// looked at.
#[derive(Clone, Copy)]
pub(crate) struct Running {
    pub sum: f64,
    pub lowest: f64,
    pub highest: f64,
    pub count: usize,
}

// The float of any reading.
fn float_of(x: u64) -> f64
    ensures { result ≡ from_bits binary64 x }
{
    if reading::is_missing(x) {
        f64::NAN
    } else {
        f64::from_bits(x)
    }
}

// The float of a pattern whose only NaN is MISSING: one test for it is cheaper than the one for any NaN.
pub(crate) fn own_float(x: u64) -> f64
    requires { Own x }
    ensures { result ≡ from_bits binary64 x }
{
    if x == reading::MISSING {
        f64::NAN
    } else {
        f64::from_bits(x)
    }
}

// One of two running aggregates, each part by itself.
fn one_of(c: bool, s: Running, t: Running) -> Running
    ensures { result ≡ (if c then s else t) }
{
    Running {
        sum: reading::pick(c, s.sum, t.sum),
        lowest: reading::pick(c, s.lowest, t.lowest),
        highest: reading::pick(c, s.highest, t.highest),
        count: reading::pick(c, s.count, t.count),
    }
}

impl Running {
    // No present reading yet.
    pub(crate) fn new() -> Running
        ensures { meant result ≡ nothing_yet }
    {
        Running {
            sum: 0.0,
            lowest: 0.0,
            highest: 0.0,
            count: 0,
        }
    }

    // The first present reading.
    fn start(x: f64) -> Running
        ensures { meant result ≡ started x }
    {
        Running {
            sum: x,
            lowest: x,
            highest: x,
            count: 1,
        }
    }

    // One more present reading behind a first.
    fn extend(self, x: f64) -> Running
        requires { self.count ≤ max_series }
        ensures { meant result ≡ extended (meant self) x }
    {
        Running {
            sum: self.sum + x,
            lowest: reading::pick(x < self.lowest, x, self.lowest),
            highest: reading::pick(self.highest < x, x, self.highest),
            count: self.count + 1,
        }
    }

    // One more present reading.
    fn include(self, x: f64) -> Running
        requires { self.count ≤ max_series }
        ensures { meant result ≡ included (meant self) x }
    {
        one_of(self.count == 0, Running::start(x), self.extend(x))
    }

    // One more reading, which may be missing.
    pub(crate) fn with_reading(self, x: u64) -> Running
        requires { self.count ≤ max_series }
        ensures { meant result ≡ with_reading (meant self) x }
    {
        one_of(reading::is_missing(x), self, self.include(float_of(x)))
    }

    // The reading of an aggregate, or MISSING where there is no present reading.
    pub(crate) fn reading_of(self, aggregate: Aggregate) -> u64
        ensures { result ≡ reading_in (meant self) (aggregate_of aggregate) }
    {
        let n = self.count;
        if n == 0 {
            return reading::MISSING;
        }
        match aggregate {
            Aggregate::Sum => reading::written(self.sum),
            Aggregate::Min => reading::written(self.lowest),
            Aggregate::Max => reading::written(self.highest),
            Aggregate::Count => reading::written(std::num::nearest_u64_to_f64(n as u64)),
            Aggregate::Avg => reading::written(self.sum / std::num::nearest_u64_to_f64(n as u64)),
        }
    }
}
