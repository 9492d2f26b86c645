// The tags of a label record, one after another.
#![tactic(auto)]

mod tag_parts; // a tag as parts of a record's bytes

ghost use Rattle.std.specs.Prelude.{◌≡◌};
ghost use Rattle.record_tags.specs.Lenient.{labels_of};
ghost use Rattle.record_tags.specs.Cursors.{TagsOf, NextAt, every};

pub use tag_parts::Tag;

// The name of a record; nothing where its field is cut.
pub fn name_of(rec: &[u8]) -> &[u8]
    ensures { result.now ≡ (labels_of rec.now).name }
{
    match fields::field_at(rec, 0) {
        Some(name) => &rec[name.start..name.end],
        None => &rec[..0],
    }
}

// Where a tag stands: its bytes are start..end, its key's are key..key_end, its value's key_end + 1..end; and how many tags are left behind it.
#[derive(Clone, Copy, Debug, PartialEq, Eq)]
pub struct TagSpan {
    pub start: usize,
    pub key: usize,
    pub key_end: usize,
    pub end: usize,
    pub left: usize,
}

// The first of the n tags at a place.
pub fn next_tag(s: &[u8], at: usize, n: usize) -> Option<TagSpan>
    ensures { NextAt every s.now n at result }
{
    if n == 0 {
        return None;
    }
    let key = fields::field_at(s, at)?;
    let value = fields::field_at(s, key.end)?;
    Some(TagSpan {
        start: at,
        key: key.start,
        key_end: key.end,
        end: value.end,
        left: n - 1,
    })
}

// A record's tags, one after another: `count` of them are left, and they stand at the place `at` of its bytes.
#[derive(Clone, Copy)]
pub struct Tags<'a> {
    pub bytes: &'a [u8],
    pub at: usize,
    pub count: usize,
}

pub fn tags_of(rec: &[u8]) -> Tags<'_>
    ensures { TagsOf rec.now result }
{
    let none = Tags {
        bytes: rec,
        at: 0,
        count: 0,
    };
    let Some(name) = fields::field_at(rec, 0) else {
        return none;
    };
    if rec.len() <= name.end {
        return none;
    }
    Tags {
        bytes: rec,
        at: name.end + 1,
        count: usize::from(rec[name.end]),
    }
}

impl<'a> Iterator for Tags<'a> {
    ghost use Rattle.std.specs.Iterator.{YieldsFirstBy, item_count};
    ghost use Rattle.record_tags.specs.Cursors.{tag_of, tags_left};

    type Item = Tag<'a>;

    ghost next_gives = { YieldsFirstBy tag_of tags_left };

    ghost remaining = { item_count tags_left };

    fn next(&mut self) -> Option<Tag<'a>> {
        let bytes = self.bytes;
        match next_tag(bytes, self.at, self.count) {
            Some(tag) => {
                self.at = tag.end;
                self.count = tag.left;
                Some(Tag {
                    bytes: &bytes[tag.start..tag.end],
                    key: &bytes[tag.key..tag.key_end],
                    value: &bytes[tag.key_end + 1..tag.end],
                })
            }
            None => {
                self.count = 0;
                None
            }
        }
    }
}
