// The remainder of two readings, which is C's fmod, worked out in whole numbers: a `%` on floats would be a call
// of the C library's. A finite reading is a whole number of smallest readings, its digits moved up by its scale.
#![tactic(auto)]

ghost use Rattle.std.specs.Prelude.{◌≡◌, ◌*◌, ◌%◌, ◌^◌, ◌<◌, ◌≤◌};
ghost use Rattle.operator.specs.Kinds.{remainder};
ghost use Rattle.model.specs.Reading.{calculated};
ghost use Rattle.remainder.specs.Parts.{infinity, size_of, digits_of, scale_of, power_of, signed_as};

// The place of the sign.
const SIGN: u64 = 0x8000_0000_0000_0000;

// The pattern of the infinity.
const INFINITY: u64 = 0x7ff0_0000_0000_0000;

// The place of the exponent's field, and the leading digit that a field above 0 stands for.
const LEAD: u64 = 0x0010_0000_0000_0000;

// By how many places digits, which are below 2 ^ 53, can be moved up in a word.
const PLACES: u64 = 11;

// The digits of a finite reading, as a whole number below 2 ^ 53.
fn digits(x: u64) -> u64
    ensures { result ≡ digits_of x }
{
    if x % SIGN < LEAD {
        x % LEAD
    } else {
        LEAD + x % LEAD
    }
}

// By how many places the digits of a finite reading stand above those of the smallest one.
fn scale(x: u64) -> u64
    ensures { result ≡ scale_of x }
{
    let field = x % SIGN / LEAD;
    if field > 0 { field - 1 } else { 0 }
}

// The pattern of 2 ^ k times the smallest reading. Up to 2 ^ 51 such a reading has no leading digit.
fn power(k: u64) -> u64
    requires { k ≤ 2045 }
    ensures { result ≡ power_of k }
{
    if k < 52 { 1 << k } else { (k - 51) * LEAD }
}

// The reading n * 2 ^ k times the smallest one, with the sign of x. Both factors are exact, so only their product
// could be rounded.
fn signed(x: u64, n: u64, k: u64) -> u64
    requires digits_in { n < 2 ^ 53 }
    requires scale_in { k ≤ 2045 }
    ensures { result ≡ signed_as x n k }
{
    reading::written(n as f64 * f64::from_bits(x - x % SIGN + power(k)))
}

// n * 2 ^ k % divisor: n is moved up by as many places as a word has room for and cut down to its remainder, until
// it has been moved by k.
fn moved_rest(n: u64, k: u64, divisor: u64) -> u64
    requires value_in { n < 2 ^ 53 }
    requires divisor_in { divisor < 2 ^ 53 }
    requires divides { 0 < divisor }
    ensures { result ≡ n * 2 ^ k % divisor }
{
    let mut rest = n;
    let mut more = k;
    while more >= PLACES {
        rest = (rest << PLACES) % divisor;
        more -= PLACES;
    }
    (rest << more) % divisor
}

// Of two finite readings, the right one not zero. Where the left one's scale is lower, it is the smaller one,
// since the right one has the leading digit then. Elsewhere both are whole multiples of the right one's last
// place.
fn finite(left: u64, right: u64) -> u64
    requires left_in { size_of left < infinity }
    requires right_in { size_of right < infinity }
    requires divides { 0 < size_of right }
    ensures { result ≡ calculated remainder left right }
{
    let at = scale(left);
    let by = scale(right);
    if at < by {
        return left;
    }
    signed(left, moved_rest(digits(left), at - by, digits(right)), by)
}

// The remainder of any two readings. It is missing where one of them is, where the left one is an infinity, and
// where the right one is zero.
pub fn remainder(left: u64, right: u64) -> u64
    ensures { result ≡ calculated remainder left right }
{
    let size = right % SIGN;
    if left % SIGN >= INFINITY || size == 0 || size > INFINITY {
        return reading::MISSING;
    }
    if size == INFINITY {
        return left;
    }
    finite(left, right)
}
