// The six comparisons of two readings, plain and bool. Without a gap floats are compared. With one there is no reading, but that `!=`
// without bool passes a missing left one against a present right one.
ghost use Rattle.std.specs.Prelude.{◌≡◌, cond};
ghost use Rattle.operator.specs.Kinds.{equal, unequal, less, at_most, greater, at_least};
ghost use Rattle.model.specs.Reading.{missing, no_reading, one_or_zero, compared};
ghost use Rattle.rows.specs.Floats.{ComparedBy};

fn one_or_zero(b: bool) -> u64
    ensures { result ≡ one_or_zero b }
{
    if b { 0x3ff0_0000_0000_0000 } else { 0 }
}

// What a comparison of two present readings gives, by whether it holds.
fn to_comparison_value(holds: bool, left: u64, as_bool: bool) -> u64
    ensures { result ≡ cond as_bool (one_or_zero holds) (cond holds left no_reading) }
{
    if as_bool {
        one_or_zero(holds)
    } else {
        reading::pick(holds, left, reading::MISSING)
    }
}

// What `!=` gives where a reading is missing.
fn neq_gap(left: u64, right: u64, as_bool: bool) -> u64
    ensures { result ≡ cond as_bool no_reading (cond (missing right) no_reading left) }
{
    if as_bool {
        return reading::MISSING;
    }
    reading::choose(reading::gap(right), reading::MISSING, left)
}

// What a comparison that is false with a gap gives, by what it says of the floats.
fn compared<F: Fn(f64, f64) -> bool>(holds: F, left: u64, right: u64, as_bool: bool) -> u64
    requires { F.IsAlwaysCallable holds }
    ensures { ComparedBy (F.post holds) as_bool left right result }
{
    if reading::gaps(left, right) > 0 {
        return reading::MISSING;
    }
    to_comparison_value(
        holds(f64::from_bits(left), f64::from_bits(right)),
        left,
        as_bool,
    )
}

pub(crate) fn compare_eq(left: u64, right: u64, as_bool: bool) -> u64
    ensures { result ≡ compared as_bool equal left right }
{
    compared(|x, y| x == y, left, right, as_bool)
}

pub(crate) fn compare_neq(left: u64, right: u64, as_bool: bool) -> u64
    ensures { result ≡ compared as_bool unequal left right }
{
    if reading::gaps(left, right) > 0 {
        return neq_gap(left, right, as_bool);
    }
    to_comparison_value(f64::from_bits(left) != f64::from_bits(right), left, as_bool)
}

pub(crate) fn compare_lt(left: u64, right: u64, as_bool: bool) -> u64
    ensures { result ≡ compared as_bool less left right }
{
    compared(|x, y| x < y, left, right, as_bool)
}

pub(crate) fn compare_lte(left: u64, right: u64, as_bool: bool) -> u64
    ensures { result ≡ compared as_bool at_most left right }
{
    compared(|x, y| x <= y, left, right, as_bool)
}

pub(crate) fn compare_gt(left: u64, right: u64, as_bool: bool) -> u64
    ensures { result ≡ compared as_bool greater left right }
{
    compared(|x, y| y < x, left, right, as_bool)
}

pub(crate) fn compare_gte(left: u64, right: u64, as_bool: bool) -> u64
    ensures { result ≡ compared as_bool at_least left right }
{
    compared(|x, y| y <= x, left, right, as_bool)
}
