// A reading's size in thousandths, rounded, by whole numbers.
ghost use Rattle.std.specs.Prelude.{◌≡◌, ◌^◌, ◌<◌};
ghost use Rattle.exposition.specs.Values.{exponent_of, scale, half_up, rounds_up, rounded, thousandths};
ghost use Rattle.exposed_samples.specs.Sizes.{Mantissa};

fn exponent_of(x: u64) -> u64
    ensures { result ≡ exponent_of x }
{
    x / 0x10_0000_0000_0000 % 2048
}

// The mantissa takes 53 bits.
#[tactic(auto, unfolding(exposition::specs::Values::mantissa))]
fn mantissa_of(x: u64) -> u64
    ensures { Mantissa x result }
{
    let fraction = x % 0x10_0000_0000_0000;
    if exponent_of(x) == 0 {
        fraction
    } else {
        0x10_0000_0000_0000 + fraction
    }
}

#[tactic(auto, unfolding(exposition::specs::Values::scale))]
fn scale_of(x: u64) -> u64
    ensures { result ≡ scale x }
{
    let e = exponent_of(x);
    if e == 0 {
        1074
    } else {
        1075u64.saturating_sub(e)
    }
}

// Whether an exact half is rounded up, where the whole number below it is q.
#[tactic(auto, unfolding(exposition::specs::Values::half_up))]
fn half_up(q: u64) -> bool
    ensures { result ≡ half_up q }
{
    true
}

// Whether q and r / d are rounded up, to q + 1.
fn rounds_up(q: u64, r: u64, d: u64) -> bool
    requires { r < 2 ^ 63 }
    ensures { result ≡ rounds_up q r d }
{
    let twice = 2 * r;
    d < twice || (d == twice && half_up(q))
}

// n / 2 ^ s, rounded to nearest, by shifts: a division by a variable is slow.
fn rounded_by(n: u64, s: u64) -> u64
    requires n_bound { n < 2 ^ 63 }
    requires s_bound { s < 64 }
    ensures { result ≡ rounded n (2 ^ s) }
{
    let q = n >> s;
    let d = 1 << s;
    let r = n - (q << s);
    if rounds_up(q, r, d) { q + 1 } else { q }
}

// A scale beyond 63 leaves less than half a thousandth.
pub(crate) fn thousandths(x: u64) -> u64
    ensures { result ≡ thousandths x }
{
    let n = mantissa_of(x) * 1000;
    let s = scale_of(x);
    if s < 64 { rounded_by(n, s) } else { 0 }
}
