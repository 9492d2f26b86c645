// Takes the vectors on standard input, and writes a line for each: what taking comes to, with 01's number and place for a fault, then the
// positions that it noted. A vector is two bytes of length and the label part, then two bytes that say how many readings are lent; in
// both numbers the low byte comes first.
#![tactic(auto)]

use case_parts::{number_at, part_at};
use case_text::{print, print_number, read_full};
use std::io;
use timeseries::{Vector, VectorFault};

fn print_taken(rt: &impl Print, taken: Result<Vector, VectorFault>) -> io::Result<()> {
    match taken {
        Ok(Vector { series, shape }) => {
            print(rt, b"vector")?;
            print_number(rt, series)?;
            print_number(rt, shape.points)?;
            print_number(rt, shape.start)?;
            print_number(rt, shape.step)
        }
        Err(VectorFault::Cut(i)) => {
            print(rt, b"3")?;
            print_number(rt, i)
        }
        Err(VectorFault::BadKey(i)) => {
            print(rt, b"4")?;
            print_number(rt, i)
        }
        Err(VectorFault::Readings) => print(rt, b"5 0"),
        Err(VectorFault::BadGrid) => print(rt, b"11 0"),
    }
}

// What an array of positions held before taking.
const UNTOUCHED: usize = 99999;

fn print_position(rt: &impl Print, n: usize) -> io::Result<()> {
    if n != UNTOUCHED {
        print_number(rt, n)?;
    }
    Ok(())
}

fn print_positions(rt: &impl Print, at: &[usize; 513]) -> io::Result<()> {
    for n in at {
        print_position(rt, *n)?;
    }
    Ok(())
}

// Takes a label part with some readings.
fn take(rt: &impl Print, labels: &[u8], readings: usize) -> io::Result<()> {
    let rows = [0u64; 4096];
    if 4096 < readings {
        return Ok(());
    }
    let mut at = [99999usize; 513];
    let t = timeseries::take_vector(labels, &rows[..readings], &mut at);
    print_taken(rt, t)?;
    print(rt, b" at")?;
    print_positions(rt, &at)?;
    print(rt, b"\n")
}

fn run(rt: &impl Print, s: &[u8]) -> io::Result<()> {
    // A case is as long as its parts are: its place is no count.
    let mut p: usize = 0;
    while p < s.len() {
        let labels = part_at(s, p);
        let readings_at = p + 2 + labels.len();
        take(rt, labels, number_at(s, readings_at))?;
        p = readings_at + 2;
    }
    Ok(())
}

fn main(rt: HostRuntime) -> io::Result<()> {
    let mut input = [0u8; 65536];
    let n = read_full(&rt, &mut input)?;
    run(&rt, &input[..n])
}
