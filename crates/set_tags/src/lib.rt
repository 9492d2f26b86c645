// A join's edited record: the many side's labels, with the join labels set from a one-side series, the source; measured, and written at its place.
#![tactic(auto)]

mod tag_tests; // which of the source's tags are set, and which of the many side's remain
mod edited_tags; // a walk over both records' tags in key order: the edited record's next tag, with no work array
mod naming; // the edited record's name: chosen, measured, and written
mod edited_alike; // the edited tags of two sources compared in full, and hashed

ghost use Rattle.std.specs.Prelude.{◌≡◌, ◌+◌, ◌≤◌, length};
ghost use Rattle.model.specs.Limits.{max_tags};
ghost use Rattle.model.specs.Record.{encode_tags, encode};
ghost use Rattle.labels.specs.Names.{names_of};
ghost use Rattle.writing.specs.Written.{Put};
ghost use Rattle.kept_labels.specs.Edited.{TagsSized, Sized};
ghost use Rattle.set_tags.specs.edited_tags.Walks.{edited_tags};
ghost use Rattle.set_tags.specs.Records.{ShortRecords, TagsPut, edited};

use crate::edited_tags::edited_of;
pub use edited_alike::{hash_edited, same_edited};
use kept_labels::Size;
pub use naming::{Naming, naming_of};

// How many tags the edited record has, and their bytes.
fn edited_size(many: &[u8], source: &[u8], join: &[u8], skip: &[u8]) -> Size
    requires { ShortRecords many.now source.now }
    ensures { TagsSized
        (edited_tags (names_of join.now) (names_of skip.now) many.now source.now) result }
{
    let mut tags: usize = 0;
    let mut bytes: usize = 0;
    for tag in edited_of(many, source, join, skip) {
        tags += 1;
        bytes += tag.bytes.len();
    }
    Size { tags, bytes }
}

// What writing the edited tags gives: how many they are, and the place behind them.
#[derive(Clone, Copy)]
struct PutTags {
    tags: usize,
    end: usize,
}

// Writes the edited tags.
fn put_edited<'a>(
    out: &mut [u8],
    at: usize,
    many: &'a [u8],
    source: &'a [u8],
    join: &[u8],
    skip: &[u8],
) -> PutTags
    requires { at + length (encode_tags (edited_tags (names_of join.now) (names_of skip.now) many.now source.now)) ≤ length out.old }
    ensures { TagsPut
        (edited_tags (names_of join.now) (names_of skip.now) many.now source.now)
        out.old at out.new result }
{
    let mut tags: usize = 0;
    let mut o = at;
    for tag in edited_of(many, source, join, skip) {
        tags += 1;
        o = writing::put_bytes(out, o, tag.bytes);
    }
    PutTags { tags, end: o }
}

// How many tags the edited record has, and its bytes. It is named as the caller says, whatever the lists; `naming_of` gives 01's naming.
pub fn set_tags_size(many: &[u8], source: &[u8], join: &[u8], skip: &[u8], naming: Naming) -> Size
    requires { ShortRecords many.now source.now }
    ensures { Sized (edited (names_of join.now) (names_of skip.now) naming many.now source.now) result }
{
    let s = edited_size(many, source, join, skip);
    let n = naming::naming_size(many, source, naming);
    Size {
        tags: s.tags,
        bytes: n + 1 + s.bytes,
    }
}

// Writes the edited record at its place, and gives the place behind it. Its tags are counted as they are written, and
// their count is put before them at last.
pub fn set_tags<'a>(
    out: &mut [u8],
    at: usize,
    many: &'a [u8],
    source: &'a [u8],
    join: &[u8],
    skip: &[u8],
    naming: Naming,
) -> usize
    requires few { length (edited_tags (names_of join.now) (names_of skip.now) many.now source.now) ≤ max_tags }
    requires room { at + length (encode (edited (names_of join.now) (names_of skip.now) naming many.now source.now)) ≤ length out.old }
    ensures { Put out.old at
        (encode (edited (names_of join.now) (names_of skip.now) naming many.now source.now))
        out.new result }
{
    let q = naming::put_naming(out, at, many, source, naming);
    let t = put_edited(out, q + 1, many, source, join, skip);
    let n = t.tags;
    writing::put_byte(out, q, n as u8);
    t.end
}
