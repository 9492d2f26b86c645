// The input of the program: its three parts, and of a vector's part the labels and the readings. Parts are places, and nothing is copied
// but the readings, which become numbers.
ghost use Rattle.std.specs.Prelude.{◌≡◌, ◌+◌, ◌*◌, ◌≤◌, ◌<◌, length};
ghost use Rattle.model.specs.Limits.{sizes_length};
ghost use Rattle.little_endian.specs.Numbers.{Read};
ghost use Rattle.writing.specs.Written.{Put};
ghost use Rattle.vecop_run.specs.frame.Frames.{max_input};
ghost use Rattle.vecop_run.specs.frame.Sides.{reading_count, words_in, readings_in};
ghost use Rattle.vecop_run.specs.frame.Found.{PartFound, PartsFound, Split};

use fields::Span;
use little_endian::{eight_bytes_at, four_bytes_at, two_bytes_at};
use operator::Operator;

pub(crate) const MAX_INPUT: usize = 65536;

// The part whose length stands at a place.
fn part_at(s: &[u8], at: usize) -> Option<Span>
    requires { at ≤ length s.now }
    ensures { PartFound s.now at result }
{
    if s.len() - at < 4 {
        return None;
    }
    let n = four_bytes_at(s, at) as usize;
    let start = at + 4;
    if n <= s.len() - start {
        Some(Span {
            start,
            end: start + n,
        })
    } else {
        None
    }
}

// Where the query's part and the left side's end.
#[derive(Clone, Copy)]
pub(crate) struct Parts {
    pub(crate) query: usize,
    pub(crate) left: usize,
}

// The three parts; nothing where the input is unreadable.
pub(crate) fn parts_of(s: &[u8]) -> Option<Parts>
    ensures { PartsFound s.now result }
{
    if MAX_INPUT < s.len() {
        return None;
    }
    let query = part_at(s, 0)?.end;
    let left = part_at(s, query)?.end;
    let end = part_at(s, left)?.end;
    if end == s.len() {
        Some(Parts { query, left })
    } else {
        None
    }
}

// Where a vector's labels end and its readings start.
pub(crate) fn labels_end(v: &[u8]) -> usize
    ensures { Split v.now result }
{
    if v.len() < Operator::SIZES_LENGTH {
        return v.len();
    }
    let size = two_bytes_at(v, 4) as usize;
    (Operator::SIZES_LENGTH + size).min(v.len())
}

// The first k numbers of eight bytes.
fn read_words(s: &[u8], k: usize, words: &mut [u64]) -> usize
    requires k_in_bounds { 8 * k ≤ length s.now }
    requires k_in_bounds_2 { k ≤ length words.old }
    ensures { Put words.old 0 (words_in k s.now) words.new result }
{
    for i in 0..k {
        words[i] = eight_bytes_at(s, 8 * i);
    }
    k
}

// n times p.
fn reading_count(v: &[u8]) -> usize
    requires { sizes_length ≤ length v.now }
    ensures { Read (reading_count v.now) 4294967296 result }
{
    let n = two_bytes_at(v, 0) as usize;
    let p = two_bytes_at(v, 2) as usize;
    n * p
}

// The readings of a vector: how many there are, at the start of the words. A fault in their number is left to the call.
pub(crate) fn read_readings(v: &[u8], words: &mut [u64]) -> usize
    requires v_len_bound { length v.now ≤ max_input }
    requires in_bounds { 8192 ≤ length words.old }
    ensures { Put words.old 0 (readings_in v.now) words.new result }
{
    if v.len() < Operator::SIZES_LENGTH {
        return 0;
    }
    let k = reading_count(v);
    let e = labels_end(v);
    if v.len() - e == 8 * k {
        return read_words(&v[e..], k, words);
    }
    if k == 0 {
        words[0] = 0;
        return 1;
    }
    0
}
