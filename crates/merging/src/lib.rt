// Rows of one array merged by their groups, for a plan, which is told of a row that may not be merged: the series of a
// key into the last of them, and those behind a leader into it.
#![tactic(auto)]

ghost use Rattle.std.specs.Prelude.{◌≡◌, ◌+◌, ◌-◌, ◌*◌, ◌≤◌, ◌<◌, length, take, drop};
ghost use Rattle.plan.specs.Merging.{merge_group, merge_lead};
ghost use Rattle.merging.specs.Groups.{AbsorbedAs, MergedGroup};

// Merges the row of series i, whose group is x, if that is g. Says whether the row is merged as it should be.
fn absorb(rows: &[u64], x: usize, g: usize, i: usize, allowance: usize, dst: &mut [u64]) -> bool
    requires { i * length dst.old + length dst.old ≤ length rows.now }
    ensures { AbsorbedAs allowance rows.now x g i dst.old dst.new result }
{
    if x != g {
        return true;
    }
    let src = side_parts::row(rows, dst.len(), i);
    if mergeable::merges(dst, src, allowance) {
        merge::overwrite(dst, src);
        return true;
    }
    false
}

// The place of the series whose row may not be merged.
#[derive(Clone, Copy, Debug, PartialEq, Eq)]
pub struct Unmerged(pub usize);

// Merges the rows of a group from a place up to another, in order.
pub fn merge_between(
    rows: &[u64],
    groups: &[usize],
    g: usize,
    from: usize,
    to: usize,
    allowance: usize,
    dst: &mut [u64],
) -> Result<(), Unmerged>
    requires from_le_to { from ≤ to }
    requires to_in_bounds { to ≤ length groups.now }
    requires dst_in_bounds { length groups.now * length dst.old ≤ length rows.now }
    ensures { MergedGroup
        (merge_group allowance (length dst.old) rows.now g from
        (take (to - from) (drop from groups.now)) dst.old)
        (length dst.old) dst.new result }
{
    for i in from..to {
        if !absorb(rows, groups[i], g, i, allowance, dst) {
            return Err(Unmerged(i));
        }
    }
    Ok(())
}

// The row that leads a group, with the later ones merged into it.
pub fn merge_lead(
    rows: &[u64],
    leads: &[usize],
    o: usize,
    allowance: usize,
    dst: &mut [u64],
) -> Result<(), Unmerged>
    requires o_in_bounds { o < length leads.now }
    requires dst_in_bounds { length leads.now * length dst.old ≤ length rows.now }
    ensures { MergedGroup (merge_lead allowance (length dst.old) rows.now leads.now o)
        (length dst.old) dst.new result }
{
    let p = dst.len();
    side_parts::copy_row(dst, side_parts::row(rows, p, o));
    merge_between(rows, leads, o, o + 1, leads.len(), allowance, dst)
}
