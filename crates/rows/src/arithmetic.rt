// The five arithmetic operators on two readings.
ghost use Rattle.std.specs.Prelude.{◌≡◌};
ghost use Rattle.operator.specs.Kinds.{sum, difference, product, quotient, remainder};
ghost use Rattle.model.specs.Reading.{calculated};
ghost use Rattle.rows.specs.Floats.{CalculatedBy};

// What f gives of the floats of two readings; no reading where one is missing.
fn calculated<F: Fn(f64, f64) -> f64>(f: F, left: u64, right: u64) -> u64
    requires { F.IsAlwaysCallable f }
    ensures { CalculatedBy (F.post f) left right result }
{
    if reading::gaps(left, right) > 0 {
        return reading::MISSING;
    }
    reading::written(f(f64::from_bits(left), f64::from_bits(right)))
}

pub(crate) fn op_plus(left: u64, right: u64) -> u64
    ensures { result ≡ calculated sum left right }
{
    calculated(|x, y| x + y, left, right)
}

pub(crate) fn op_minus(left: u64, right: u64) -> u64
    ensures { result ≡ calculated difference left right }
{
    calculated(|x, y| x - y, left, right)
}

pub(crate) fn op_mul(left: u64, right: u64) -> u64
    ensures { result ≡ calculated product left right }
{
    calculated(|x, y| x * y, left, right)
}

// A division is not done ahead of a branch, so it is done on solid operands and chosen afterwards.
pub(crate) fn op_div(left: u64, right: u64) -> u64
    ensures { result ≡ calculated quotient left right }
{
    let g = reading::gaps(left, right);
    let quotient = reading::written(reading::solid(left, g) / reading::solid(right, g));
    reading::pick(g > 0, reading::MISSING, quotient)
}
