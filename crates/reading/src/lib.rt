// Readings. A reading is the 64 bits of a binary64; it is missing where they are a NaN's.
#![tactic(auto)]

ghost use Rattle.std.specs.Prelude.{◌≡◌, cond, not, ◌+◌, ◌≤◌, T, eqb};
ghost use Rattle.std.specs.Float.{binary64};
ghost use Rattle.std.specs.Float.Ieee.{to_bits, nan_bits};
ghost use Rattle.model.specs.Reading.{missing};
ghost use Rattle.reading.specs.Gaps.{gap_of, solid_of};

// What a rule that gives no reading writes.
pub const MISSING: u64 = 0x7ff8_0000_0000_0000;

// All bits.
const ALL: u64 = 0xffff_ffff_ffff_ffff;

pub fn is_missing(x: u64) -> bool
    ensures { result ≡ missing x }
{
    x % 0x8000_0000_0000_0000 > 0x7ff0_0000_0000_0000
}

// The pattern of any float: MISSING for a NaN. MISSING stands in the second arm: behind a test for gaps, a gap and a NaN are
// then one choice.
pub fn written(x: f64) -> u64
    ensures { result ≡ to_bits binary64 x }
{
    if x == x { f64::to_bits(x) } else { MISSING }
}

// 1 where x is missing, else 0: a mask, a sum and a shift, which a loop over a row does two at a time.
pub fn gap(x: u64) -> u64
    ensures { result ≡ gap_of x }
{
    (x % 0x8000_0000_0000_0000 + 0x000f_ffff_ffff_ffff) >> 63
}

// How many of two readings are missing.
pub fn gaps(left: u64, right: u64) -> u64
    ensures { result ≡ gap_of left + gap_of right }
{
    gap(left) + gap(right)
}

// One of two values. Where both are at hand already, nothing waits for the choice.
pub fn pick<T: Copy>(c: bool, x: T, y: T) -> T
    ensures { result ≡ cond c x y }
{
    if c { x } else { y }
}

// x where g is 1, y where g is 0: y with all bits set where g is 1, less those that x lacks. A loop over a row does it two
// at a time with no comparison.
pub fn choose(g: u64, x: u64, y: u64) -> u64
    requires { g ≤ 1 }
    ensures { result ≡ cond (eqb g 0) y x }
{
    let m = g * ALL;
    (y | m) - ((ALL - x) & m)
}

// The float of x, or 1.0 where some reading is missing.
pub fn solid(x: u64, gaps: u64) -> f64
    requires { gaps ≡ 0 → T (not (nan_bits binary64 x)) }
    ensures { result ≡ solid_of x gaps }
{
    if gaps > 0 { 1.0 } else { f64::from_bits(x) }
}
