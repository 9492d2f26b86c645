// The label record of a code of a join: its many-side record edited from its one-side record, measured, and written.
#![tactic(auto)]

ghost use Rattle.std.specs.Prelude.{◌≡◌, length};
ghost use Rattle.model.specs.Record.{encode};
ghost use Rattle.labels.specs.Names.{names_of};
ghost use Rattle.writing.specs.Written.{Put};
ghost use Rattle.side_parts.specs.Lent.{lent, labelled};
ghost use Rattle.answers.specs.Tallies.{SizedRecord};
ghost use Rattle.join_records.specs.Records.{coded_join_labels, JoinRecord, LabelRoom};

use kept_labels::Size;
use set_tags::Naming;

// The size of the record of a code.
pub fn join_record_size(
    naming: Naming,
    lists: [&[u8]; 2],
    labels: [&[u8]; 2],
    at: [&[usize]; 2],
    code: usize,
) -> Size
    requires { let s = labelled labels at in JoinRecord s code }
    ensures { let s = labelled labels.entry at.entry in
        SizedRecord
        (coded_join_labels naming (names_of (lent lists.entry 0)) (names_of (lent lists.entry 1)) s code) result }
{
    let rec = side_parts::record(labels[0], at[0], row_codes::many_place(code));
    let source = side_parts::record(labels[1], at[1], row_codes::one_place(code));
    set_tags::set_tags_size(rec, source, lists[0], lists[1], naming)
}

// Writes the record of a code, and gives the place behind it.
pub fn put_join_record(
    naming: Naming,
    lists: [&[u8]; 2],
    labels: [&[u8]; 2],
    at: [&[usize]; 2],
    code: usize,
    out: &mut [u8],
    o: usize,
) -> usize
    requires join_record { let s = labelled labels at in JoinRecord s code }
    requires label_room { let s = labelled labels at in
        LabelRoom (coded_join_labels naming (names_of (lent lists 0)) (names_of (lent lists 1)) s code) o (length out.old) }
    ensures { let s = labelled labels.entry at.entry in
        Put out.old o
        (encode (coded_join_labels naming (names_of (lent lists.entry 0)) (names_of (lent lists.entry 1)) s code))
        out.new result }
{
    let rec = side_parts::record(labels[0], at[0], row_codes::many_place(code));
    let source = side_parts::record(labels[1], at[1], row_codes::one_place(code));
    set_tags::set_tags(out, o, rec, source, lists[0], lists[1], naming)
}
