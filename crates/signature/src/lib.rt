// The matching keys of records: compared in full, and hashed.
#![tactic(auto)]

ghost use Rattle.std.specs.Prelude.{◌≡◌};
ghost use Rattle.model.specs.Labels.{same_tags};
ghost use Rattle.labels.specs.Matchings.{matching_of};
ghost use Rattle.chosen_tags.specs.Keys.{record_key, hash_byte, hash_bytes, hash_of};

use labels::Matching;

// Whether two records have the same key.
pub fn same_key(a: &[u8], b: &[u8], matching: Matching, list: &[u8]) -> bool
    ensures { result ≡ same_tags
        (record_key (matching_of matching) list.now a.now)
        (record_key (matching_of matching) list.now b.now) }
{
    let mut others = chosen_tags::chosen_of(b, matching, list);
    for tag in chosen_tags::chosen_of(a, matching, list) {
        match others.next() {
            Some(other) => {
                if !fields::same_bytes(tag.bytes, other.bytes) {
                    return false;
                }
            }
            None => return false,
        }
    }
    others.next().is_none()
}

fn hash_byte(h: u64, b: u8) -> u64
    ensures { result ≡ hash_byte h b }
{
    (h % 0x80_0000_0000) * 16777619 + u64::from(b)
}

// A hash h carried on over bytes.
pub fn hash_bytes(h: u64, s: &[u8]) -> u64
    ensures { result ≡ hash_bytes h s.now }
{
    let mut x = h;
    for b in s {
        x = hash_byte(x, *b);
    }
    x
}

// A number that records of the same key share.
pub fn hash_key(rec: &[u8], matching: Matching, list: &[u8]) -> u64
    ensures { result ≡ hash_of (record_key (matching_of matching) list.now rec.now) }
{
    let mut x: u64 = 0;
    for tag in chosen_tags::chosen_of(rec, matching, list) {
        x = hash_bytes(x, tag.bytes);
    }
    x
}
