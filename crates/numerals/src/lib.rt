// Numbers as digits: counted, and written at a place of a lent part.
#![tactic(auto)]

ghost use Rattle.std.specs.Prelude.{◌≡◌, ◌+◌, ◌≤◌, ◌<◌, length};
ghost use Rattle.writing.specs.Written.{Put};
ghost use Rattle.model.specs.Numerals.{digit, digits, digit_count, decimal};

fn digit_of(d: u64) -> u8
    requires { d < 16 }
    ensures { result ≡ digit d }
{
    if d < 10 {
        b'0' + d as u8
    } else {
        b'a' + (d - 10) as u8
    }
}

// Writes the last k digits of a number to a base, from the last to the first.
pub fn put_digits(out: &mut [u8], at: usize, base: u64, k: usize, n: u64) -> usize
    requires n_in_bounds { at + length (digits base k n) ≤ length out.old }
    requires lt_base { 1 < base }
    requires base_bound { base ≤ 16 }
    ensures { Put out.old at (digits base k n) out.new result }
{
    let mut rest = n;
    for i in (0..k).rev() {
        out[at + i] = digit_of(rest % base);
        rest /= base;
    }
    at + k
}

// How many decimal digits a number has.
pub fn digit_count(n: u64) -> usize
    ensures { result ≡ digit_count 20 n }
{
    let mut rest = n;
    for k in 0..20 {
        if rest < 10 {
            return k + 1;
        }
        rest /= 10;
    }
    20
}

// Writes a number's decimal digits.
pub fn put_decimal(out: &mut [u8], at: usize, n: u64) -> usize
    requires { at + length (decimal n) ≤ length out.old }
    ensures { Put out.old at (decimal n) out.new result }
{
    put_digits(out, at, 10, digit_count(n), n)
}
