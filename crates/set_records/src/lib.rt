// The label record of a code of a set rule: measured, and written at its place.
#![tactic(auto)]

ghost use Rattle.std.specs.Prelude.{◌≡◌, ◌+◌, ◌≤◌, ◌<◌, length};
ghost use Rattle.model.specs.Limits.{max_label_bytes};
ghost use Rattle.model.specs.Record.{encode};
ghost use Rattle.record_tags.specs.Lenient.{labels_of};
ghost use Rattle.writing.specs.Written.{Put};
ghost use Rattle.side_parts.specs.Lent.{labelled, BothFormed, record_count};
ghost use Rattle.answers.specs.Tallies.{SizedRecord};
ghost use Rattle.set_records.specs.Records.{RecordCode, coded_set_labels, RowRecord};

use fields::Span;
use kept_labels::Size;

// The record of a row: of a left place, or of a right one counted behind the left ones.
fn row_record<'a>(labels: [&'a [u8]; 2], at: [&[usize]; 2], x: usize) -> &'a [u8]
    requires both_formed { let s = labelled labels at in BothFormed s }
    requires x_bound { let s = labelled labels at in x < record_count s.left + record_count s.right }
    ensures { let s = labelled labels.entry at.entry in RowRecord s x result.now }
{
    let left_at = at[0];
    let n = left_at.len() - 1;
    if x < n {
        return side_parts::record(labels[0], left_at, x);
    }
    side_parts::record(labels[1], at[1], x - n)
}

// The size of a record.
fn record_size(rec: &[u8]) -> Size
    requires rec_value { rec.now ≡ encode (labels_of rec.now) }
    requires rec_len_bound { length rec.now ≤ max_label_bytes }
    ensures { SizedRecord (labels_of rec.now) result }
{
    match fields::field_at(rec, 0) {
        Some(Span { end, .. }) => Size {
            tags: usize::from(rec[end]),
            bytes: rec.len(),
        },
        None => Size { tags: 0, bytes: 0 },
    }
}

// The size of the record of a code.
pub fn set_record_size(labels: [&[u8]; 2], at: [&[usize]; 2], code: usize) -> Size
    requires both_formed { let s = labelled labels at in BothFormed s }
    requires record_code { let s = labelled labels at in RecordCode s code }
    ensures { let s = labelled labels.entry at.entry in SizedRecord (coded_set_labels s code) result }
{
    record_size(row_record(labels, at, end_codes::left_last(code)))
}

// Writes the record of a code, and gives the place behind it.
pub fn put_set_record(
    labels: [&[u8]; 2],
    at: [&[usize]; 2],
    code: usize,
    out: &mut [u8],
    o: usize,
) -> usize
    requires both_formed { let s = labelled labels at in BothFormed s }
    requires record_code { let s = labelled labels at in RecordCode s code }
    requires code_in_bounds { let s = labelled labels at in
        o + length (encode (coded_set_labels s code)) ≤ length out.old }
    ensures { let s = labelled labels.entry at.entry in Put out.old o (encode (coded_set_labels s code)) out.new result }
{
    writing::put_bytes(out, o, row_record(labels, at, end_codes::left_last(code)))
}
