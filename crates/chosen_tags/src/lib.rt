// The tags of a record that are in its matching key.
#![tactic(auto)]

ghost use Rattle.std.specs.Prelude.{◌≡◌};
ghost use Rattle.labels.specs.Names.{names_of};
ghost use Rattle.labels.specs.Matchings.{matching_of};
ghost use Rattle.model.specs.Query.{key_of};
ghost use Rattle.record_tags.specs.Cursors.{NextAt};
ghost use Rattle.chosen_tags.specs.Keys.{is_chosen, record_key};
ghost use Rattle.chosen_tags.specs.Chosen.{chosen_left};

use labels::Matching;
use record_tags::{Tag, TagSpan, Tags};

// Whether a matching puts the tags of a label into the key.
fn is_chosen(matching: Matching, list: &[u8], label: &[u8]) -> bool
    ensures { result ≡ is_chosen (matching_of matching) (names_of list.now) label.now }
{
    match matching {
        Matching::All => true,
        Matching::On => labels::in_list(list, label),
        Matching::Ignoring => !labels::in_list(list, label),
    }
}

// The first of the n tags at a place that is in the key.
pub fn next_chosen(
    s: &[u8],
    at: usize,
    n: usize,
    matching: Matching,
    list: &[u8],
) -> Option<TagSpan>
    ensures { NextAt (key_of (matching_of matching) (names_of list.now)) s.now n at result }
{
    let mut p = at;
    let mut m = n;
    while let Some(tag) = record_tags::next_tag(s, p, m) {
        if is_chosen(matching, list, &s[tag.key..tag.key_end]) {
            return Some(tag);
        }
        p = tag.end;
        m = tag.left;
    }
    None
}

// The tags of a record's key, one after another.
#[derive(Clone, Copy)]
pub struct Chosen<'a, 'b> {
    pub tags: Tags<'a>,
    pub matching: Matching,
    pub list: &'b [u8],
}

pub fn chosen_of<'a, 'b>(rec: &'a [u8], matching: Matching, list: &'b [u8]) -> Chosen<'a, 'b>
    ensures { chosen_left result ≡ record_key (matching_of matching) list.now rec.now }
{
    Chosen {
        tags: record_tags::tags_of(rec),
        matching,
        list,
    }
}

impl<'a, 'b> Iterator for Chosen<'a, 'b> {
    ghost use Rattle.std.specs.Iterator.{YieldsFirstBy, item_count};
    ghost use Rattle.record_tags.specs.Cursors.{tag_of};
    ghost use Rattle.chosen_tags.specs.Chosen.{chosen_left};

    type Item = Tag<'a>;

    ghost next_gives = { YieldsFirstBy tag_of chosen_left };

    ghost remaining = { item_count chosen_left };

    // Inlined: over a call the iterator and each item would go through memory.
    #[inline(always)]
    fn next(&mut self) -> Option<Tag<'a>> {
        let bytes = self.tags.bytes;
        match next_chosen(
            bytes,
            self.tags.at,
            self.tags.count,
            self.matching,
            self.list,
        ) {
            Some(tag) => {
                self.tags.at = tag.end;
                self.tags.count = tag.left;
                Some(Tag {
                    bytes: &bytes[tag.start..tag.end],
                    key: &bytes[tag.key..tag.key_end],
                    value: &bytes[tag.key_end + 1..tag.end],
                })
            }
            None => {
                self.tags.count = 0;
                None
            }
        }
    }
}
