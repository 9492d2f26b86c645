// What the programs that run cases read and print. No contract can say what is read or written.
#![tactic(auto)]

ghost use Rattle.std.specs.Prelude.{◌≤◌, length, IfOk};

use std::io;
use std::io::Read;

// Reads standard input into a buffer, to the buffer's end or the input's, and says how many bytes that is.
pub fn read_full(rt: &impl Input, buf: &mut [u8]) -> io::Result<usize>
    ensures { IfOk result (λ n. n ≤ length buf.new) }
{
    let mut input = rt.reader();
    let mut n: usize = 0;
    for _ in 0..u64::MAX {
        let got = input.read(&mut buf[n..])?;
        if got == 0 {
            break;
        }
        n += got;
    }
    Ok(n)
}

pub fn print(rt: &impl Print, text: &[u8]) -> io::Result<()> {
    rt.write_all(text)
}

// A space and the number.
pub fn print_number(rt: &impl Print, n: usize) -> io::Result<()> {
    print!(rt; " {n}")
}

pub fn print_bool(rt: &impl Print, b: bool) -> io::Result<()> {
    if b {
        print(rt, b"yes ")
    } else {
        print(rt, b"no ")
    }
}

// Tags and bytes of a record, a space behind each.
pub fn print_size(rt: &impl Print, tags: usize, bytes: usize) -> io::Result<()> {
    print!(rt; "{tags} {bytes} ")
}

fn print_byte(rt: &impl Print, b: u8) -> io::Result<()> {
    print!(rt; "{b:02x}")
}

// Two hexadecimal digits a byte.
pub fn print_bytes(rt: &impl Print, s: &[u8]) -> io::Result<()> {
    for b in s {
        print_byte(rt, *b)?;
    }
    Ok(())
}

// The bytes before a place, and the one at it.
pub fn print_front(rt: &impl Print, s: &[u8], n: usize) -> io::Result<()> {
    if n < s.len() {
        print_bytes(rt, &s[..n])?;
        print_byte(rt, s[n])?;
    }
    Ok(())
}
