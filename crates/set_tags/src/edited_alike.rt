// Whether two sources give a many-side record the same tags: compared in full, and hashed.
ghost use Rattle.std.specs.Prelude.{◌≡◌};
ghost use Rattle.model.specs.Labels.{same_tags};
ghost use Rattle.labels.specs.Names.{names_of};
ghost use Rattle.chosen_tags.specs.Keys.{hash_of};
ghost use Rattle.set_tags.specs.edited_tags.Walks.{edited_tags};

use crate::edited_tags::edited_of;

// Whether a many-side record has the same tags edited from the source a as from the source b.
pub fn same_edited<'a>(many: &'a [u8], a: &'a [u8], b: &'a [u8], join: &[u8], skip: &[u8]) -> bool
    ensures { result ≡ same_tags
        (edited_tags (names_of join.now) (names_of skip.now) many.now a.now)
        (edited_tags (names_of join.now) (names_of skip.now) many.now b.now) }
{
    let mut others = edited_of(many, b, join, skip);
    for tag in edited_of(many, a, join, skip) {
        match others.next() {
            Some(other) => {
                if !fields::same_bytes(tag.bytes, other.bytes) {
                    return false;
                }
            }
            None => return false,
        }
    }
    others.next().is_none()
}

// A number that sources share where they give a many-side record the same tags.
pub fn hash_edited<'a>(many: &'a [u8], source: &'a [u8], join: &[u8], skip: &[u8]) -> u64
    ensures { result ≡ hash_of (edited_tags (names_of join.now) (names_of skip.now) many.now source.now) }
{
    let mut h: u64 = 0;
    for tag in edited_of(many, source, join, skip) {
        h = signature::hash_bytes(h, tag.bytes);
    }
    h
}
