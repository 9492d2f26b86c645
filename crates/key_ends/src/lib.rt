// The first and the last places of keys on two sides, found in linear time by a table of key numbers.
#![tactic(auto)]

ghost use Rattle.std.specs.Prelude.{◌≡◌, ◌+◌, ◌*◌, ◌≤◌, ◌<◌, length};
ghost use Rattle.plan.specs.Keys.{first_of, last_of};
ghost use Rattle.key_ends.specs.Ends.{ends_code, SideEnds, SideEndsPut, PairEndsPut};
ghost use Rattle.key_ends.specs.Tables.{noted, Table};

// The key number of a series that takes no part.
pub const DROPPED: usize = 1024;

// The first and the last place of a key; both are the number of places where it has none.
#[derive(Clone, Copy)]
struct Ends {
    first: usize,
    last: usize,
}

// Notes a place, behind those noted before, at a key's number; a number that the table has no room for is not noted.
fn note(table: &mut [Ends], k: usize, i: usize)
    ensures { table.new ≡ noted table.old k i }
{
    // By its index: of what a table is after `get_mut` no clause speaks.
    if k < table.len() {
        let first = table[k].first.min(i);
        table[k] = Ends { first, last: i };
    }
}

// The first and the last place of each number, in a table that says that there is none.
fn note_ends(keys: &[usize], table: &mut [Ends])
    requires { Table (λ k. length keys.now) (λ k. length keys.now) table.old }
    ensures { Table (first_of keys.now) (last_of keys.now) table.new }
{
    for (i, k) in keys.iter().enumerate() {
        note(table, *k, i);
    }
}

// Both places of a key, as one number; from the table where it has room for the key's number.
fn ends_at(keys: &[usize], table: &[Ends], k: usize) -> usize
    requires keys_len_bound { length keys.now ≤ 512 }
    requires table { Table (first_of keys.now) (last_of keys.now) table.now }
    ensures { result ≡ ends_code keys.now k }
{
    match table.get(k) {
        Some(ends) => end_codes::side_code(ends.first, ends.last),
        None => end_codes::side_code(key_places::first_of(keys, k), key_places::last_of(keys, k)),
    }
}

// The places of each key that is asked for.
fn put_ends(keys: &[usize], table: &[Ends], asked: &[usize], ends: &mut [usize])
    requires keys_len_bound { length keys.now ≤ 512 }
    requires table { Table (first_of keys.now) (last_of keys.now) table.now }
    requires asked_in_bounds { length asked.now ≤ length ends.old }
    ensures { SideEndsPut keys.now asked.now ends.old ends.new }
{
    for (i, k) in asked.iter().enumerate() {
        ends[i] = ends_at(keys, table, *k);
    }
}

// The places on a side of each key that is asked for, by a table of its key numbers.
pub fn side_ends(keys: &[usize], asked: &[usize], ends: &mut [usize])
    requires keys_len_bound { length keys.now ≤ 512 }
    requires asked_in_bounds { length asked.now ≤ length ends.old }
    ensures { SideEndsPut keys.now asked.now ends.old ends.new }
{
    let mut table = [Ends {
        first: keys.len(),
        last: keys.len(),
    }; 1024];
    note_ends(keys, &mut table);
    put_ends(keys, &table, asked, ends);
}

// Left places and right places put together.
fn join_ends(lkeys: &[usize], rkeys: &[usize], right: &[usize], ends: &mut [usize])
    requires lkeys_len_bound { length lkeys.now ≤ 512 }
    requires rkeys_len_bound { length rkeys.now ≤ 512 }
    requires side_ends { SideEnds rkeys.now lkeys.now right.now }
    requires side_ends_2 { SideEnds lkeys.now lkeys.now ends.old }
    ensures { PairEndsPut lkeys.now rkeys.now ends.old ends.new }
{
    for i in 0..lkeys.len() {
        ends[i] = end_codes::both_code(ends[i], right[i]);
    }
}

// The places on both sides of the key of each left place, as one number: those on the left, then those on the right.
pub fn pair_ends(lkeys: &[usize], rkeys: &[usize], ends: &mut [usize])
    requires lkeys_len_bound { length lkeys.now ≤ 512 }
    requires rkeys_len_bound { length rkeys.now ≤ 512 }
    requires lkeys_in_bounds { length lkeys.now ≤ length ends.old }
    ensures { PairEndsPut lkeys.now rkeys.now ends.old ends.new }
{
    let mut right = [0usize; 512];
    side_ends(lkeys, lkeys, ends);
    side_ends(rkeys, lkeys, &mut right);
    join_ends(lkeys, rkeys, &right, ends);
}
