// The plan of an aggregation: the codes of its groups, listed. It refuses nothing.
#![tactic(auto)]

ghost use Rattle.std.specs.Prelude.{◌≤◌, length};
ghost use Rattle.model.specs.Limits.{max_series};
ghost use Rattle.key_ends.specs.Ends.{SideEnds};
ghost use Rattle.index_lists.specs.Places.{NotedAll};
ghost use Rattle.group_plan.specs.Codes.{group_codes};

// Lists the codes of the series that are the first of their key. Counts on where the list is full.
fn list_groups(keys: &[usize], ends: &[usize], codes: &mut [usize]) -> usize
    requires keys_len_bound { length keys.now ≤ max_series }
    requires side_ends { SideEnds keys.now keys.now ends.now }
    ensures { NotedAll (group_codes keys.now) 0 codes.old codes.new result }
{
    let mut n = 0;
    for i in 0..keys.len() {
        let e = ends[i];
        let here = end_codes::side_first(e) == i;
        n = index_lists::note_if(here, e, n, codes);
    }
    n
}

// Lists the codes of the groups, each of its key's first and last place, and counts them.
pub fn plan_groups(keys: &[usize], codes: &mut [usize]) -> usize
    requires { length keys.now ≤ max_series }
    ensures { NotedAll (group_codes keys.now) 0 codes.old codes.new result }
{
    let mut ends = [0usize; 512];
    key_ends::side_ends(keys, keys, &mut ends);
    list_groups(keys, &ends, codes)
}
