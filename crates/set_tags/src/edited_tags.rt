// The tags of a join's edited record: both records' tags walked once, in key order, so that no work array is needed.
ghost use Rattle.std.specs.Prelude.{◌≡◌};
ghost use Rattle.labels.specs.Names.{names_of};
ghost use Rattle.set_tags.specs.edited_tags.Walks.{edited_tags, edited_left, StepsOver};

use crate::tag_tests;
use record_tags::{Tag, Tags};

// The edited tags, one after another: what is left of the many side's tags and of the source's.
#[derive(Clone, Copy)]
pub(crate) struct Edited<'a, 'b> {
    pub many: Tags<'a>,
    pub source: Tags<'a>,
    pub join: &'b [u8],
    pub skip: &'b [u8],
}

pub(crate) fn edited_of<'a, 'b>(
    many: &'a [u8],
    source: &'a [u8],
    join: &'b [u8],
    skip: &'b [u8],
) -> Edited<'a, 'b>
    ensures { edited_left result ≡ edited_tags (names_of join.now) (names_of skip.now) many.now source.now }
{
    Edited {
        many: record_tags::tags_of(many),
        source: record_tags::tags_of(source),
        join,
        skip,
    }
}

impl<'a, 'b> Edited<'a, 'b> {
    // The step over the lower of both records' next keys, or over the two tags of a key that both have: a tag, or none
    // where the edited record lacks it. At the end there is no step.
    fn step(&mut self) -> Option<Option<Tag<'a>>>
        ensures { StepsOver self.old result self.new }
    {
        let mut many = self.many;
        let mut source = self.source;
        let Some(tag) = many.next() else {
            let other = source.next()?;
            self.source = source;
            return Some(tag_tests::is_set(self.join, self.skip, other.key).then_some(other));
        };
        let Some(other) = source.next() else {
            self.many = many;
            return Some(tag_tests::remains(self.join, self.skip, tag.key).then_some(tag));
        };
        if fields::same_bytes(tag.key, other.key) {
            self.many = many;
            self.source = source;
            if tag_tests::is_set(self.join, self.skip, tag.key) {
                return Some(Some(other));
            }
            return Some(Some(tag));
        }
        if fields::is_below(tag.key, other.key) {
            self.many = many;
            return Some(tag_tests::remains(self.join, self.skip, tag.key).then_some(tag));
        }
        self.source = source;
        Some(tag_tests::is_set(self.join, self.skip, other.key).then_some(other))
    }
}

impl<'a, 'b> Iterator for Edited<'a, 'b> {
    ghost use Rattle.std.specs.Iterator.{YieldsFirstBy, item_count};
    ghost use Rattle.record_tags.specs.Cursors.{tag_of};
    ghost use Rattle.set_tags.specs.edited_tags.Walks.{edited_left};

    type Item = Tag<'a>;

    ghost next_gives = { YieldsFirstBy tag_of edited_left };

    ghost remaining = { item_count edited_left };

    fn next(&mut self) -> Option<Tag<'a>> {
        while let Some(step) = self.step() {
            if let Some(tag) = step {
                return Some(tag);
            }
        }
        None
    }
}
