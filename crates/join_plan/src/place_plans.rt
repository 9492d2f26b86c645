// One many-side place of a join: the leaders of its key's one-side series marked, the merges behind them tried, its
// answer rows listed, and the members of each marked. Only the places from the key's first to its last are looked at.
ghost use Rattle.std.specs.Prelude.{◌≡◌, ◌+◌, ◌*◌, ◌≤◌, ◌<◌, length};
ghost use Rattle.labels.specs.Names.{names_of};
ghost use Rattle.side_parts.specs.Sides.{record_at, Positions};
ghost use Rattle.side_parts.specs.Lent.{RecordsHeld, lent};
ghost use Rattle.key_ends.specs.Ends.{EndsOf};
ghost use Rattle.join_plan.specs.lead_marks.Marks.{leads_in, LastsNoted};
ghost use Rattle.join_plan.specs.join_leads.Checks.{CodesFit};
ghost use Rattle.join_plan.specs.place_plans.Places.{LeadsPlanned, PlaceDone, PlaceMarked, PlaceHeld};

use crate::{join_leads, lead_marks};
use answers::Clash;

// The merges behind the leaders of the many-side place m tried, and its answer rows noted behind the n before, with
// the marks of their members, and how many rows there are by now. The leaders stand from the place `first` on.
fn plan_leads(
    m: usize,
    first: usize,
    n: usize,
    allowance: usize,
    rows: &[u64],
    leads: &[usize],
    lasts: &[usize],
    work: &mut [u64],
    codes: &mut [usize],
    marks: &mut [usize],
) -> Result<usize, Clash>
    requires noted { LastsNoted first leads.now lasts.now }
    requires order { first ≤ length leads.now }
    requires room { length leads.now ≤ length lasts.now }
    requires fit { CodesFit m n leads.now }
    requires held { length leads.now * length work.old ≤ length rows.now }
    ensures { LeadsPlanned allowance m n (length work.old) rows.now first leads.now
        codes.old marks.old codes.new marks.new result }
{
    join_leads::check_leads(rows, leads, lasts, first, allowance, work)?;
    Ok(join_leads::list_leads(leads, lasts, first, m, n, codes, marks))
}

// The many-side place m, of a key whose first and last place on the one side are the code c. Where the key has no
// series there, or one, the leaders are not looked at.
pub(crate) fn plan_place(
    m: usize,
    c: usize,
    n: usize,
    allowance: usize,
    rows: &[u64],
    leads: &[usize],
    lasts: &[usize],
    work: &mut [u64],
    codes: &mut [usize],
    marks: &mut [usize],
) -> Result<usize, Clash>
    requires { PlaceHeld m c n (length work.old) rows.now leads.now lasts.now marks.old }
    ensures { PlaceDone allowance m c n (length work.old) rows.now leads.now
        codes.old marks.old codes.new marks.new result }
{
    let first = end_codes::side_first(c);
    let last = end_codes::side_last(c);
    if first == last {
        if first == leads.len() {
            return Ok(n);
        }
        return Ok(join_leads::list_lead(m, first, n, codes));
    }
    let end = last + 1;
    plan_leads(
        m,
        first,
        n,
        allowance,
        rows,
        &leads[..end],
        lasts,
        work,
        codes,
        marks,
    )
}

// The leaders for the many-side place m of the key k, whose code is c, marked where the key has several series on the
// one side. The hashes are a work array.
pub(crate) fn place_leads(
    m: usize,
    k: usize,
    c: usize,
    labels: [&[u8]; 2],
    at: [&[usize]; 2],
    keys: &[usize],
    lists: [&[u8]; 2],
    leads: &mut [usize],
    lasts: &mut [usize],
    hashes: &mut [u64],
)
    requires many { Positions (lent labels 0) (lent at 0) }
    requires place { m + 1 < length (lent at 0) }
    requires records { RecordsHeld (lent labels 1) (lent at 1) }
    requires count { length (lent at 1) ≡ length keys.now + 1 }
    requires ends { EndsOf keys.now k c }
    requires room { length keys.now ≤ length leads.old }
    requires noted { length keys.now ≤ length lasts.old }
    requires hashed { length keys.now ≤ length hashes.old }
    ensures { PlaceMarked c
        (leads_in (names_of (lent lists.entry 0)) (names_of (lent lists.entry 1))
        (record_at (lent labels.entry 0) (lent at.entry 0) m) k (lent labels.entry 1) (lent at.entry 1)
        keys.now) leads.new lasts.new }
{
    let first = end_codes::side_first(c);
    let last = end_codes::side_last(c);
    if first == last {
        return;
    }
    let rec = side_parts::record(labels[0], at[0], m);
    lead_marks::mark_leads(
        rec, k, first, last, labels[1], at[1], keys, lists, leads, hashes,
    );
    let end = last + 1;
    lead_marks::note_lasts(&leads[..end], first, lasts);
}
