// Prints what `vecop` prints for the inputs on standard input, each after its length (4 bytes, the low one first).
#![tactic(auto)]

ghost use Rattle.std.specs.Prelude.{◌≤◌, length};
ghost use Rattle.vecop_run.specs.Vecop.{max_text};

use case_parts::number_at;
use case_text::{print, read_full};
use std::io;

fn show(rt: &impl Print, s: &[u8], text: &mut [u8]) -> io::Result<()>
    requires { max_text ≤ length text.old }
{
    let k = vecop_run::vecop(s, text);
    print(rt, &text[..k])
}

fn run(rt: &impl Print, s: &[u8], text: &mut [u8]) -> io::Result<()>
    requires { max_text ≤ length text.old }
{
    // A case is as long as it says: its place is no count.
    let mut p: usize = 0;
    while p < s.len() {
        let n = number_at(s, p) + 65536 * number_at(s, p + 2);
        let start = p + 4;
        let end = start + n;
        if s.len() < end {
            return Ok(());
        }
        show(rt, &s[start..end], text)?;
        p = end;
    }
    Ok(())
}

fn main(rt: HostRuntime) -> io::Result<()> {
    let mut input = [0u8; 524288];
    let n = read_full(&rt, &mut input)?;
    let mut text = [0u8; vecop_run::MAX_TEXT];
    run(&rt, &input[..n], &mut text)
}
