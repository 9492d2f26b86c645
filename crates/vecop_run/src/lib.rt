// What the program prints for an input.
#![tactic(auto)]

mod frame; // the input's three parts, and the parts of a vector
mod label_text; // a record's labels
mod outcome_text; // an outcome, and `unreadable`

ghost use Rattle.std.specs.Prelude.{◌≡◌, ◌≤◌, length};
ghost use Rattle.writing.specs.Written.{Put};
ghost use Rattle.vecop_run.specs.frame.Frames.{max_input};
ghost use Rattle.vecop_run.specs.frame.Sides.{readings_in};
ghost use Rattle.vecop_run.specs.outcome_text.Text.{printed};
ghost use Rattle.vecop_run.specs.Vecop.{ran, called, vecop_text, max_text};

use crate::frame::{Parts, labels_end, parts_of};

// Room for every text.
pub const MAX_TEXT: usize = 335960;

// The readings of a vector's part, as numbers at the start of the words.
fn readings_of<'a>(v: &[u8], words: &'a mut [u64]) -> &'a [u64]
    requires v_len_bound { length v.now ≤ max_input }
    requires in_bounds { 8192 ≤ length words.old }
    ensures { result.now ≡ readings_in v.now }
{
    let n = frame::read_readings(v, words);
    &words[..n]
}

// A query over label parts and readings, with output parts as long as the program's.
fn put_run(
    query: &[u8],
    left_labels: &[u8],
    left: &[u64],
    right_labels: &[u8],
    right: &[u64],
    text: &mut [u8],
) -> usize
    requires { max_text ≤ length text.old }
    ensures { Put text.old 0
        (printed (ran query.now left_labels.now left.now right_labels.now
        right.now))
        text.new result }
{
    let mut labels = [0u8; 65535];
    let mut readings = [0u64; 8192];
    let x = binop_vector_vector::exec_binop(
        query,
        left_labels,
        left,
        right_labels,
        right,
        &mut labels,
        &mut readings,
    );
    outcome_text::put_outcome(text, x, &labels, &readings)
}

// A query over vectors' parts.
fn put_called(query: &[u8], left: &[u8], right: &[u8], text: &mut [u8]) -> usize
    requires left_len_bound { length left.now ≤ max_input }
    requires right_len_bound { length right.now ≤ max_input }
    requires max_text_in_bounds { max_text ≤ length text.old }
    ensures { Put text.old 0 (printed (called query.now left.now right.now))
        text.new result }
{
    let mut left_words = [0u64; 8192];
    let mut right_words = [0u64; 8192];
    put_run(
        query,
        &left[..labels_end(left)],
        readings_of(left, &mut left_words),
        &right[..labels_end(right)],
        readings_of(right, &mut right_words),
        text,
    )
}

// The text of an input, at the start of the buffer, and its length.
pub fn vecop(input: &[u8], text: &mut [u8]) -> usize
    requires { max_text ≤ length text.old }
    ensures { Put text.old 0 (vecop_text input.now) text.new result }
{
    match parts_of(input) {
        Some(Parts { query, left }) => put_called(
            &input[4..query],
            &input[query + 4..left],
            &input[left + 4..],
            text,
        ),
        None => outcome_text::put_unreadable(text),
    }
}
