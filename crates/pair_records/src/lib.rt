// The label record of a code of one-to-one: its left record edited, measured, and written at its place.
#![tactic(auto)]

mod adjusted_labels; // a left record edited, `adjust_binary_op_tags`

ghost use Rattle.std.specs.Prelude.{◌+◌, ◌≤◌, length};
ghost use Rattle.model.specs.Record.{encode};
ghost use Rattle.writing.specs.Written.{Put};
ghost use Rattle.side_parts.specs.Lent.{RecordsHeld};
ghost use Rattle.answers.specs.Tallies.{SizedRecord};
ghost use Rattle.pair_records.specs.adjusted_labels.Edits.{pair_query};
ghost use Rattle.pair_records.specs.Records.{coded_pair_labels, RecordCode};

use kept_labels::Size;
use query::Query;

// The size of the record of a code.
pub fn pair_record_size(q: Query, names: &[u8], array: &[u8], at: &[usize], code: usize) -> Size
    requires records_held { RecordsHeld array.now at.now }
    requires record_code { RecordCode at.now code }
    ensures { SizedRecord
        (coded_pair_labels (pair_query names.now q) array.now at.now code) result }
{
    let rec = side_parts::record(array, at, end_codes::left_last(code));
    adjusted_labels::adjusted_size(rec, q, names)
}

// Writes the record of a code, and gives the place behind it.
pub fn put_pair_record(
    q: Query,
    names: &[u8],
    array: &[u8],
    at: &[usize],
    code: usize,
    out: &mut [u8],
    o: usize,
) -> usize
    requires records_held { RecordsHeld array.now at.now }
    requires record_code { RecordCode at.now code }
    requires code_in_bounds { o + length (encode (coded_pair_labels (pair_query names.now q) array.now at.now code)) ≤ length out.old }
    ensures { Put out.old o
        (encode (coded_pair_labels (pair_query names.now q) array.now at.now code))
        out.new result }
{
    let rec = side_parts::record(array, at, end_codes::left_last(code));
    adjusted_labels::adjust_binary_op_tags(out, o, rec, q, names)
}
