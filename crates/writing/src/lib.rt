// Bytes written at a place of a lent part.
#![tactic(auto)]

ghost use Rattle.std.specs.Prelude.{[], ◌∷◌, ◌+◌, ◌-◌, ◌≤◌, ◌<◌, length, take, drop};
ghost use Rattle.writing.specs.Written.{Put};

// Writes one byte, and gives the place behind it.
pub fn put_byte(out: &mut [u8], at: usize, b: u8) -> usize
    requires { at + 1 ≤ length out.old }
    ensures { Put out.old at (b ∷ []) out.new result }
{
    out[at] = b;
    at + 1
}

// Writes bytes, and gives the place behind them.
pub fn put_bytes(out: &mut [u8], at: usize, src: &[u8]) -> usize
    requires { at + length src.now ≤ length out.old }
    ensures { Put out.old at src.now out.new result }
{
    // By index: `copy_from_slice` would need `memmove` from outside the library.
    for j in 0..src.len() {
        out[at + j] = src[j];
    }
    at + src.len()
}

// Writes once more what stands at a place before it, and gives the place behind it.
pub fn put_again(out: &mut [u8], at: usize, from: usize, n: usize) -> usize
    requires n_bound { from + n ≤ at }
    requires n_in_bounds { at + n ≤ length out.old }
    ensures { Put out.old at (take n (drop from out.old)) out.new result }
{
    // By index: `copy_from_slice` would need `memmove` from outside the library.
    for i in 0..n {
        out[at + i] = out[from + i];
    }
    at + n
}
