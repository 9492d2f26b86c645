// The number of one record's key among the keys before it: by the place noted for its hash, and compared in full.
ghost use Rattle.std.specs.Prelude.{◌≡◌, ◌+◌, ◌-◌, ◌<◌, [], ◌++◌, length, get_or};
ghost use Rattle.record_tags.specs.Lenient.{labels_of};
ghost use Rattle.side_parts.specs.Sides.{labels_in};
ghost use Rattle.key_numbers.specs.key_lookup.Rules.{alike_by, hash_by, place_by, HashedBy, labels_over};
ghost use Rattle.key_numbers.specs.key_lookup.Buckets.{buckets, bucket_of, Noted};

use crate::record_keys;
use crate::record_keys::KeyRule;

// A side's records, with the hashes of their keys.
#[derive(Clone, Copy)]
pub struct HashedSide<'a> {
    pub array: &'a [u8],
    pub at: &'a [usize],
    pub hashes: &'a [u64],
}

// The first record of a side that has the key of another, with the hash h; or how many records there are.
fn find_key(side: HashedSide, rec: &[u8], h: u64, rule: KeyRule) -> usize
    requires hashed { HashedBy rule side }
    requires h_value { h ≡ hash_by rule (labels_of rec.now) }
    ensures { result ≡ place_by rule.entry (labels_in side.entry.array.now side.entry.at.now) (labels_of rec.now) }
{
    for (i, g) in side.hashes.iter().enumerate() {
        let there = side_parts::record(side.array, side.at, i);
        if record_keys::same_key(*g, there, h, rec, rule) {
            return i;
        }
    }
    side.hashes.len()
}

// The number of a record's key, by a search: among the left records, else behind them.
fn scan_number(left: HashedSide, own: HashedSide, rec: &[u8], h: u64, rule: KeyRule) -> usize
    requires left_hashed { HashedBy rule left }
    requires own_hashed { HashedBy rule own }
    requires h_value { h ≡ hash_by rule (labels_of rec.now) }
    ensures { result ≡ place_by rule.entry (labels_over left.entry own.entry) (labels_of rec.now) }
{
    let n = left.hashes.len();
    let k = find_key(left, rec, h, rule);
    if k < n {
        return k;
    }
    n + find_key(own, rec, h, rule)
}

// What is noted at a hash's bucket.
fn place_noted(table: &[u16], h: u64) -> usize
    requires { length table.now ≡ buckets }
    ensures { result ≡ get_or table.now (bucket_of h) 0 }
{
    usize::from(table[(h % 16384) as usize])
}

// Whether the record at a place, counted over the left records and then those behind them, has the key of another.
fn has_key(left: HashedSide, own: HashedSide, j: usize, rec: &[u8], h: u64, rule: KeyRule) -> bool
    requires left_hashed { HashedBy rule left }
    requires own_hashed { HashedBy rule own }
    requires j_in_bounds { j < length left.hashes.now + length own.hashes.now }
    requires h_value { h ≡ hash_by rule (labels_of rec.now) }
    ensures { result ≡ alike_by rule.entry (get_or (labels_over left.entry own.entry) j (labels_of [])) (labels_of rec.now) }
{
    let before = left.hashes.len();
    if j < before {
        let there = side_parts::record(left.array, left.at, j);
        return record_keys::same_key(left.hashes[j], there, h, rec, rule);
    }
    let k = j - before;
    let there = side_parts::record(own.array, own.at, k);
    record_keys::same_key(own.hashes[k], there, h, rec, rule)
}

// The number of a record's key, by the place noted for its hash: none before it has the key. Only where the series there
// has another key is it searched for.
pub(crate) fn key_number(
    left: HashedSide,
    own: HashedSide,
    table: &[u16],
    rec: &[u8],
    h: u64,
    rule: KeyRule,
) -> usize
    requires left_hashed { HashedBy rule left }
    requires own_hashed { HashedBy rule own }
    requires noted { Noted table.now (left.hashes.now ++ own.hashes.now) }
    requires h_value { h ≡ hash_by rule (labels_of rec.now) }
    ensures { result ≡ place_by rule.entry (labels_over left.entry own.entry) (labels_of rec.now) }
{
    let n = left.hashes.len() + own.hashes.len();
    let j = place_noted(table, h);
    if n <= j {
        return n;
    }
    if has_key(left, own, j, rec, h, rule) {
        return j;
    }
    scan_number(left, own, rec, h, rule)
}
