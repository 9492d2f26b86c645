// The keys of two vectors, numbered by their first places, in expected linear time by a table of hashes.
#![tactic(auto)]

mod key_lookup; // the number of one record's key
mod record_keys; // one record's key, hashed and compared

ghost use Rattle.std.specs.Prelude.{◌≡◌, ◌+◌, ◌<◌, [], length};
ghost use Rattle.side_parts.specs.Sides.{labels_in, Positions};
ghost use Rattle.key_numbers.specs.key_lookup.Rules.{HashedBy, NumberedBy};
ghost use Rattle.key_numbers.specs.key_lookup.Buckets.{buckets, noted, Noted};

pub use key_lookup::HashedSide;
pub use record_keys::KeyRule;

// Notes a place at a hash's bucket, where nothing before it is noted.
fn note(table: &mut [u16], h: u64, n: usize)
    requires { length table.old ≡ buckets }
    ensures { table.new ≡ noted table.old h n }
{
    let b = (h % 16384) as usize;
    if n < usize::from(table[b]) {
        table[b] = n as u16;
    }
}

// Notes the places of hashes, in a table that has noted nothing.
fn note_hashes(hashes: &[u64], table: &mut [u16])
    requires { length table.old ≡ buckets }
    ensures { Noted table.new hashes.now }
{
    for (i, h) in hashes.iter().enumerate() {
        note(table, *h, i);
    }
}

// Numbers the keys of a side behind a left one, with the places of the left hashes noted.
fn number_noted(
    left: HashedSide,
    array: &[u8],
    at: &[usize],
    rule: KeyRule,
    hashes: &mut [u64],
    keys: &mut [usize],
    table: &mut [u16],
)
    requires hashed { HashedBy rule left }
    requires noted { Noted table.old left.hashes.now }
    requires positions { Positions array.now at.now }
    requires at_len { length at.now ≡ length keys.old + 1 }
    requires hashes_len { length hashes.old ≡ length keys.old }
    ensures { NumberedBy rule.entry (labels_in left.entry.array.now left.entry.at.now) array.now at.now
        hashes.new keys.new }
{
    for i in 0..keys.len() {
        let rec = side_parts::record(array, at, i);
        let h = record_keys::hash_key(rec, rule);
        let own = HashedSide {
            array,
            at: &at[..i + 1],
            hashes: &hashes[..i],
        };
        keys[i] = key_lookup::key_number(left, own, table, rec, h, rule);
        hashes[i] = h;
        note(table, h, left.hashes.len() + i);
    }
}

// Numbers the keys of the right side by their first places: the left side's number, else their own behind the left ones.
// Hashes and keys are two arrays, both lent: a caller keeps the keys alone.
pub fn number_right(
    left: HashedSide,
    array: &[u8],
    at: &[usize],
    rule: KeyRule,
    hashes: &mut [u64],
    keys: &mut [usize],
)
    requires hashed { HashedBy rule left }
    requires positions { Positions array.now at.now }
    requires at_len { length at.now ≡ length keys.old + 1 }
    requires hashes_len { length hashes.old ≡ length keys.old }
    ensures { NumberedBy rule.entry (labels_in left.entry.array.now left.entry.at.now) array.now at.now
        hashes.new keys.new }
{
    // 65535: nothing is noted
    let mut table = [65535u16; 16384];
    note_hashes(left.hashes, &mut table);
    number_noted(left, array, at, rule, hashes, keys, &mut table);
}

// Numbers the keys of the left side by their first places.
pub fn number_left(
    array: &[u8],
    at: &[usize],
    rule: KeyRule,
    hashes: &mut [u64],
    keys: &mut [usize],
)
    requires positions { Positions array.now at.now }
    requires at_len { length at.now ≡ length keys.old + 1 }
    requires hashes_len { length hashes.old ≡ length keys.old }
    ensures { NumberedBy rule.entry [] array.now at.now hashes.new keys.new }
{
    let none = HashedSide {
        array,
        at: &at[..1],
        hashes: &[],
    };
    number_right(none, array, at, rule, hashes, keys);
}
