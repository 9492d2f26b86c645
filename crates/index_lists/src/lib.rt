// Numbers noted in an array, and the right places that a left series meets.
#![tactic(auto)]

ghost use Rattle.std.specs.Prelude.{◌≡◌, ◌+◌, ◌≤◌, ◌<◌, length, set};
ghost use Rattle.model.specs.Limits.{max_series};
ghost use Rattle.index_lists.specs.Places.{NotedIf, NotedAll, coded_met};

// Writes a number at the place n of a list, unless the list is full.
pub fn note(list: &mut [usize], n: usize, x: usize)
    ensures { list.new ≡ set list.old n x }
{
    // By its index: of what a list is after `get_mut` no clause speaks.
    if n < list.len() {
        list[n] = x;
    }
}

// Lists a number behind the n before it where a test holds. Counts on where the list is full.
pub fn note_if(here: bool, x: usize, n: usize, list: &mut [usize]) -> usize
    requires { n ≤ 1024 }
    ensures { NotedIf here x n list.old list.new result }
{
    if here {
        note(list, n, x);
        return n + 1;
    }
    n
}

// Lists the places from `first` to `last` that have the key of `last`, and counts them: none where `last` is no place.
pub fn met(keys: &[usize], first: usize, last: usize, places: &mut [usize]) -> usize
    requires { length keys.now ≤ max_series }
    ensures { NotedAll (coded_met keys.now first last) 0 places.old places.new result }
{
    if keys.len() <= last {
        return 0;
    }
    let k = keys[last];
    let mut n = 0;
    for j in first..last + 1 {
        n = note_if(keys[j] == k, j, n, places);
    }
    n
}
