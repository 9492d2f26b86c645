// The merges behind the leaders of a join, tried; and the answer rows that the leaders give, listed and marked.
ghost use Rattle.std.specs.Prelude.{[], ◌∷◌, ◌+◌, ◌*◌, ◌≤◌, ◌<◌, length, take};
ghost use Rattle.plan.specs.Merging.{merge_lead};
ghost use Rattle.plan.specs.Joins.{row_code};
ghost use Rattle.index_lists.specs.Places.{NotedAll};
ghost use Rattle.join_plan.specs.lead_marks.Marks.{LastsNoted};
ghost use Rattle.join_plan.specs.join_leads.Checks.{TriedAs, ClashOf, CodesFit, RowFits, RowsListed};

use answers::Clash;
use merging::Unmerged;

// The merges behind a leader up to a place, tried in a work row as wide as any.
fn try_lead(
    rows: &[u64],
    leads: &[usize],
    o: usize,
    last: usize,
    allowance: usize,
    work: &mut [u64],
) -> Result<(), Unmerged>
    requires order { o ≤ last }
    requires inside { last < length leads.now }
    requires held { length leads.now * length work.old ≤ length rows.now }
    ensures { TriedAs
        (merge_lead allowance (length work.old) rows.now (take (last + 1) leads.now) o)
        result }
{
    if last == o {
        return Ok(());
    }
    let end = last + 1;
    merging::merge_lead(rows, &leads[..end], o, allowance, work)
}

// Every merge of a many-side series, up to the first that fails; its leaders stand from a place on.
pub(crate) fn check_leads(
    rows: &[u64],
    leads: &[usize],
    lasts: &[usize],
    first: usize,
    allowance: usize,
    work: &mut [u64],
) -> Result<(), Clash>
    requires noted { LastsNoted first leads.now lasts.now }
    requires order { first ≤ length leads.now }
    requires room { length leads.now ≤ length lasts.now }
    requires held { length leads.now * length work.old ≤ length rows.now }
    ensures { ClashOf allowance (length work.old) rows.now first leads.now result }
{
    for o in first..leads.len() {
        if leads[o] == o {
            try_lead(rows, leads, o, lasts[o], allowance, work).map_err(|e| Clash {
                kept: o,
                failed: e.0,
            })?;
        }
    }
    Ok(())
}

// Notes the answer row of the many-side place m and the one-side place o behind the n before, and gives their number.
// A row that the list has no room for is only counted.
pub(crate) fn list_lead(m: usize, o: usize, n: usize, list: &mut [usize]) -> usize
    requires { RowFits m o n }
    ensures { NotedAll (row_code m o ∷ []) n list.old list.new result }
{
    index_lists::note(list, n, row_codes::row_code(m, o));
    n + 1
}

// Notes the answer rows of the many-side place m behind the n before, marks their members, and gives their number; the
// leaders stand from a place on.
pub(crate) fn list_leads(
    leads: &[usize],
    lasts: &[usize],
    first: usize,
    m: usize,
    n: usize,
    list: &mut [usize],
    marks: &mut [usize],
) -> usize
    requires noted { LastsNoted first leads.now lasts.now }
    requires order { first ≤ length leads.now }
    requires room { length leads.now ≤ length lasts.now }
    requires fit { CodesFit m n leads.now }
    ensures { RowsListed m n first leads.now list.old marks.old list.new
        marks.new result }
{
    let mut r = n;
    for o in first..leads.len() {
        if leads[o] == o {
            row_marks::mark_row(leads, o, lasts[o], r * 8, marks);
            r = list_lead(m, o, r, list);
        }
    }
    r
}
