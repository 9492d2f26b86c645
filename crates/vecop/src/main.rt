// Reads a query and two vectors from standard input, and prints the answer or the refusal; or `unreadable`.
#![tactic(auto)]

use std::io;

// The input's buffer holds a byte more than an input may have.
fn main(rt: HostRuntime) -> io::Result<()> {
    let mut input = [0u8; 65537];
    let n = case_text::read_full(&rt, &mut input)?;
    let mut text = [0u8; vecop_run::MAX_TEXT];
    let k = vecop_run::vecop(&input[..n], &mut text);
    rt.write_all(&text[..k])
}
