// The one-side series that a many-side series meets, each by the earliest with the same edited tags; and of each such
// leader the last place that has it.
ghost use Rattle.std.specs.Prelude.{◌≡◌, ◌+◌, ◌≤◌, ◌<◌, length};
ghost use Rattle.model.specs.Limits.{max_series};
ghost use Rattle.labels.specs.Names.{names_of};
ghost use Rattle.plan.specs.Keys.{KeyEnds};
ghost use Rattle.side_parts.specs.Sides.{Positions};
ghost use Rattle.side_parts.specs.Lent.{RecordsHeld, lent};
ghost use Rattle.join_plan.specs.lead_marks.Marks.{buckets, BucketNoted, LeadFound, edited_hash, leads_in};
ghost use Rattle.join_plan.specs.lead_marks.Marks.{LeadsPut, LastsNoted};

// Notes a place at the bucket of its hash, where no place before it is noted, and gives the place that is then noted.
fn note_bucket(table: &mut [u16], h: u64, o: usize) -> usize
    requires { length table.old ≡ buckets }
    ensures { BucketNoted table.old h o table.new result }
{
    let b = (h % 512) as usize;
    let n = table[b] as usize;
    if o < n {
        table[b] = o as u16;
        return o;
    }
    n
}

// The first leader before a place that gives the same edited tags, or the place; those before `from` have other
// hashes. The hashes only spare comparisons.
fn find_lead<'a>(
    many: &'a [u8],
    array: &'a [u8],
    at: &[usize],
    leads: &[usize],
    hashes: &[u64],
    from: usize,
    o: usize,
    h: u64,
    join: &[u8],
    skip: &[u8],
) -> usize
    requires positions { Positions array.now at.now }
    requires from_le_o { from ≤ o }
    requires o_in_bounds { o + 1 < length at.now }
    requires o_in_bounds_2 { o ≤ length leads.now }
    requires o_in_bounds_3 { o ≤ length hashes.now }
    requires h_value { h ≡ edited_hash (names_of join.now) (names_of skip.now) many.now array.now at.now o }
    ensures { LeadFound (names_of join.now) (names_of skip.now) many.now array.now
        at.now leads.now hashes.now from o result }
{
    let rec = side_parts::record(array, at, o);
    for i in from..o {
        if leads[i] == i
            && hashes[i] == h
            && set_tags::same_edited(many, side_parts::record(array, at, i), rec, join, skip)
        {
            return i;
        }
    }
    o
}

// For a many-side record of a key: each one-side series of the key, from its first place to its last, gets the place
// of the earliest with the same edited tags. The hashes are a work array; the first place of each bucket of them is
// noted in a table, so that few places are searched.
pub(crate) fn mark_leads<'a>(
    many: &'a [u8],
    k: usize,
    first: usize,
    last: usize,
    array: &'a [u8],
    at: &[usize],
    keys: &[usize],
    lists: [&[u8]; 2],
    leads: &mut [usize],
    hashes: &mut [u64],
)
    requires records { RecordsHeld array.now at.now }
    requires count { length at.now ≡ length keys.now + 1 }
    requires few { length keys.now ≤ max_series }
    requires ends { KeyEnds keys.now k first last }
    requires order { first < last }
    requires inside { last < length keys.now }
    requires long { length keys.now ≤ length leads.old }
    requires room { length keys.now ≤ length hashes.old }
    ensures { LeadsPut first last
        (leads_in (names_of (lent lists.entry 0)) (names_of (lent lists.entry 1)) many.now k
        array.now at.now keys.now) leads.new }
{
    let join = lists[0];
    let skip = lists[1];
    // 65535: nothing is noted
    let mut table = [65535u16; 512];
    for o in first..last + 1 {
        if keys[o] == k {
            let h = set_tags::hash_edited(many, side_parts::record(array, at, o), join, skip);
            let from = note_bucket(&mut table, h, o);
            leads[o] = find_lead(many, array, at, leads, hashes, from, o, h, join, skip);
            hashes[o] = h;
        } else {
            leads[o] = key_ends::DROPPED;
        }
    }
}

// Notes at each leader from a place on the last place that has it.
pub(crate) fn note_lasts(leads: &[usize], first: usize, lasts: &mut [usize])
    requires order { first ≤ length leads.now }
    requires room { length leads.now ≤ length lasts.old }
    ensures { LastsNoted first leads.now lasts.new }
{
    for i in first..leads.len() {
        index_lists::note(lasts, leads[i], i);
    }
}
