// Runs cases from standard input and prints what the operators and merging give.
// A case: what to run (1 byte), operator or allowance (1), bool (1), one spare byte, the lengths of two rows (2 each, at most
// 2,048), the rows.
#![tactic(auto)]

ghost use Rattle.std.specs.Prelude.{◌≡◌, ◌*◌, ◌<◌, ◌≤◌, length, IfOk, IfSome};

use case_parts::{number_at, reading_at};
use case_text::{print, read_full};
use merge::MergeError;
use operator::Operator;
use std::io;

// A row that begins with n readings.
fn load(s: &[u8], n: usize) -> [u64; 2048]
    requires n_bound { n ≤ 2048 }
    requires n_in_bounds { n * 8 ≤ length s.now }
    ensures { 2048 ≡ length result }
{
    let mut row = [0u64; 2048];
    for i in 0..n {
        row[i] = reading_at(s, i * 8);
    }
    row
}

fn print_reading(rt: &impl Print, x: u64) -> io::Result<()> {
    print!(rt; " {x:016x}")
}

fn print_row(rt: &impl Print, name: &[u8], row: &[u64]) -> io::Result<()> {
    print(rt, name)?;
    for x in row {
        print_reading(rt, *x)?;
    }
    print(rt, b"\n")
}

fn run_operator(
    rt: &impl Print,
    op: u8,
    bool: bool,
    left: &[u64],
    right: &[u64],
    out: &mut [u64],
) -> io::Result<()>
    requires left_len { length left.now ≡ length out.old }
    requires right_len { length right.now ≡ length out.old }
{
    if let Ok(o) = Operator::try_from(op) {
        rows::apply_rows(o, bool, left, right, out);
        print_row(rt, b"rows", out)?;
    }
    Ok(())
}

fn run_merge(rt: &impl Print, allowance: usize, dst: &mut [u64], src: &[u64]) -> io::Result<()> {
    let name: &[u8] = match merge::merge_non_overlapping_timeseries(dst, src, allowance) {
        Ok(()) => b"done",
        Err(MergeError::Overlapping) => b"overlapping",
        Err(MergeError::Unequal) => b"refused 6",
        Err(MergeError::BadAllowance) => b"refused 13",
    };
    print_row(rt, name, dst)
}

fn run_loaded(
    rt: &impl Print,
    what: u8,
    op: u8,
    bool: bool,
    left: &mut [u64],
    n: usize,
    right: &[u64],
    m: usize,
) -> io::Result<()>
    requires n_in_bounds { (n ≤ length left.old) × (n ≤ 2048) }
    requires m_in_bounds { m ≤ length right.now }
{
    if what == 1 {
        return run_merge(rt, usize::from(op), &mut left[..n], &right[..m]);
    }
    if n == m {
        let mut out = [0u64; 2048];
        run_operator(rt, op, bool, &left[..n], &right[..m], &mut out[..n])?;
    }
    Ok(())
}

// Runs the case at the start of the bytes: its length, or None where it is cut.
fn run_case(rt: &impl Print, s: &[u8]) -> io::Result<Option<usize>>
    ensures { IfOk result (λ o. IfSome o (λ k. (0 < k) × (k ≤ length s.now))) }
{
    if s.len() < 8 {
        return Ok(None);
    }
    let n = number_at(s, 4);
    let m = number_at(s, 6);
    if n > 2048 || m > 2048 {
        return Ok(None);
    }
    let middle = 8 + n * 8;
    let end = middle + m * 8;
    if s.len() < end {
        return Ok(None);
    }
    let mut left = load(&s[8..middle], n);
    let right = load(&s[middle..end], m);
    run_loaded(rt, s[0], s[1], s[2] == 1, &mut left, n, &right, m)?;
    Ok(Some(end))
}

fn run(rt: &impl Print, s: &[u8]) -> io::Result<()> {
    let mut rest = s;
    while let Some(k) = run_case(rt, rest)? {
        rest = &rest[k..];
    }
    Ok(())
}

fn main(rt: HostRuntime) -> io::Result<()> {
    let mut input = [0u8; 65536];
    let n = read_full(&rt, &mut input)?;
    run(&rt, &input[..n])
}
