// What a line has behind its labels, a reading and its time: measured, and written at a place of a lent part.
#![tactic(auto)]

mod thousandths; // a reading's size in thousandths, rounded

ghost use Rattle.std.specs.Prelude.{◌≡◌, ◌+◌, ◌≤◌, length};
ghost use Rattle.writing.specs.Written.{Put};
ghost use Rattle.writing.specs.Measured.{Measured};
ghost use Rattle.exposition.specs.Values.{is_signed, sign_text, thousandths_text, value_text};
ghost use Rattle.exposition.specs.Text.{time_text, sample_text};

use crate::thousandths::thousandths;
use numerals::{digit_count, put_decimal, put_digits};
use writing::put_byte;

// Whether t thousandths of a reading have a sign: a printed zero has none.
fn is_signed(x: u64, t: u64) -> bool
    ensures { result ≡ is_signed x t }
{
    0x8000_0000_0000_0000 <= x && 0 < t
}

fn sign_size(signed: bool) -> usize
    ensures { Measured (sign_text signed) 1 result }
{
    usize::from(signed)
}

fn put_sign(out: &mut [u8], at: usize, signed: bool) -> usize
    requires { at + length (sign_text signed) ≤ length out.old }
    ensures { Put out.old at (sign_text signed) out.new result }
{
    if signed { put_byte(out, at, b'-') } else { at }
}

fn put_thousandths(out: &mut [u8], at: usize, t: u64) -> usize
    requires { at + length (thousandths_text t) ≤ length out.old }
    ensures { Put out.old at (thousandths_text t) out.new result }
{
    let o = put_decimal(out, at, t / 1000);
    let p = put_byte(out, o, b'.');
    put_digits(out, p, 10, 3, t)
}

fn value_size(x: u64) -> usize
    ensures { Measured (value_text x) 25 result }
{
    let t = thousandths(x);
    sign_size(is_signed(x, t)) + digit_count(t / 1000) + 4
}

fn put_value(out: &mut [u8], at: usize, x: u64) -> usize
    requires { at + length (value_text x) ≤ length out.old }
    ensures { Put out.old at (value_text x) out.new result }
{
    let t = thousandths(x);
    let o = put_sign(out, at, is_signed(x, t));
    put_thousandths(out, o, t)
}

fn put_time(out: &mut [u8], at: usize, time: u64) -> usize
    requires { at + length (time_text time) ≤ length out.old }
    ensures { Put out.old at (time_text time) out.new result }
{
    let o = put_byte(out, at, b' ');
    let p = put_decimal(out, o, time);
    put_byte(out, p, b'\n')
}

// Two spaces and a line feed stand around the value and the time.
pub fn sample_size(time: u64, x: u64) -> usize
    ensures { Measured (sample_text time x) 48 result }
{
    value_size(x) + digit_count(time) + 3
}

pub fn put_sample(out: &mut [u8], at: usize, time: u64, x: u64) -> usize
    requires { at + length (sample_text time x) ≤ length out.old }
    ensures { Put out.old at (sample_text time x) out.new result }
{
    let o = put_byte(out, at, b' ');
    let p = put_value(out, o, x);
    put_time(out, p, time)
}
