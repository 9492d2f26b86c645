// Label records with the tags of their key: sizes without writing, and writing at a place, with no work array.
#![tactic(auto)]

ghost use Rattle.std.specs.Prelude.{◌+◌, ◌-◌, ◌≤◌, length};
ghost use Rattle.model.specs.Record.{encode_tags, encode};
ghost use Rattle.labels.specs.Names.{names_of};
ghost use Rattle.record_tags.specs.Lenient.{labels_of};
ghost use Rattle.labels.specs.Matchings.{matching_of};
ghost use Rattle.chosen_tags.specs.Keys.{record_key};
ghost use Rattle.writing.specs.Written.{Put};
ghost use Rattle.kept_labels.specs.Edited.{kept, TagsSized, Sized};

use labels::Matching;

// How many tags there are, and their bytes.
#[derive(Clone, Copy)]
pub struct Size {
    pub tags: usize,
    pub bytes: usize,
}

// The tags of a record's key.
fn chosen_size(rec: &[u8], matching: Matching, list: &[u8]) -> Size
    ensures { TagsSized (record_key (matching_of matching) list.now rec.now) result }
{
    let mut tags: usize = 0;
    let mut bytes: usize = 0;
    for tag in chosen_tags::chosen_of(rec, matching, list) {
        tags += 1;
        bytes += tag.bytes.len();
    }
    Size { tags, bytes }
}

// Writes the tags of a record's key.
fn put_chosen(out: &mut [u8], at: usize, rec: &[u8], matching: Matching, list: &[u8]) -> usize
    requires { at + length (encode_tags (record_key (matching_of matching) list.now rec.now)) ≤ length out.old }
    ensures { Put out.old at (encode_tags (record_key (matching_of matching) list.now rec.now))
        out.new result }
{
    let mut o = at;
    for tag in chosen_tags::chosen_of(rec, matching, list) {
        o = writing::put_bytes(out, o, tag.bytes);
    }
    o
}

// A record with the tags of its key, and its name or none.
pub fn kept_size(rec: &[u8], matching: Matching, list: &[u8], keep_name: bool) -> Size
    ensures { Sized (kept (matching_of matching) (names_of list.now) keep_name (labels_of rec.now)) result }
{
    let s = chosen_size(rec, matching, list);
    let n = record_names::name_size(rec, keep_name);
    Size {
        tags: s.tags,
        bytes: n + 1 + s.bytes,
    }
}

// Writes that record, and gives the place behind it.
pub fn put_kept(
    out: &mut [u8],
    at: usize,
    rec: &[u8],
    matching: Matching,
    list: &[u8],
    keep_name: bool,
) -> usize
    requires { at + length (encode (kept (matching_of matching) (names_of list.now) keep_name (labels_of rec.now))) ≤ length out.old }
    ensures { Put out.old at
        (encode (kept (matching_of matching) (names_of list.now) keep_name (labels_of rec.now)))
        out.new result }
{
    let s = chosen_size(rec, matching, list);
    let n = s.tags;
    let q = record_names::put_name(out, at, rec, keep_name);
    let o = writing::put_byte(out, q, n as u8);
    put_chosen(out, o, rec, matching, list)
}
