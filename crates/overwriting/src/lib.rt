// Rows of one array written over one another, for a row of the answer, whose merges a plan has tried: no place is counted
// again. The series of a key over the last of them, and those that are marked behind a leader over it.
#![tactic(auto)]

ghost use Rattle.std.specs.Prelude.{◌≡◌, ◌+◌, ◌-◌, ◌*◌, ◌≤◌, ◌<◌, length};
ghost use Rattle.overwriting.specs.Overwriting.{overwritten_if, overwritten_by, in_group, row_of_several};
ghost use Rattle.overwriting.specs.Marks.{bits_from, marked_behind, row_of_marked};

// Writes the row of series i, whose group is x, over dst if that is g.
fn overwrite_if(rows: &[u64], x: usize, g: usize, i: usize, dst: &mut [u64])
    requires { i * length dst.old + length dst.old ≤ length rows.now }
    ensures { dst.new ≡ overwritten_if (length dst.old) rows.now x g i dst.old }
{
    if x == g {
        let p = dst.len();
        merge::overwrite(dst, side_parts::row(rows, p, i));
    }
}

// Writes the rows of a group from a place up to another over dst, in order.
fn overwrite_between(
    rows: &[u64],
    groups: &[usize],
    g: usize,
    from: usize,
    to: usize,
    dst: &mut [u64],
)
    requires from_le_to { from ≤ to }
    requires to_in_bounds { to ≤ length groups.now }
    requires dst_in_bounds { length groups.now * length dst.old ≤ length rows.now }
    ensures { dst.new ≡ overwritten_by (length dst.old) rows.now
        (in_group groups.now g) from (to - from) dst.old }
{
    for i in from..to {
        overwrite_if(rows, groups[i], g, i, dst);
    }
}

// The row of a place with an earlier one over it, then those of its key between the two, in order.
pub fn put_several(rows: &[u64], keys: &[usize], first: usize, last: usize, dst: &mut [u64])
    requires first_lt_last { first < last }
    requires last_in_bounds { last < length keys.now }
    requires dst_in_bounds { length keys.now * length dst.old ≤ length rows.now }
    ensures { dst.new ≡ row_of_several (length dst.old) rows.now keys.now first last }
{
    let p = dst.len();
    merge::put_overwritten(
        dst,
        side_parts::row(rows, p, last),
        side_parts::row(rows, p, first),
    );
    overwrite_between(rows, keys, keys[last], first + 1, last, dst);
}

// Writes the rows that a word marks over dst, in order, up to its last bit: bit j is the place `from` + j, of `count`.
fn overwrite_word(rows: &[u64], word: usize, from: usize, count: usize, dst: &mut [u64])
    requires { count * length dst.old ≤ length rows.now }
    ensures { dst.new ≡ overwritten_by (length dst.old) rows.now (bits_from word from) from
        (count - from) dst.old }
{
    let mut w = word;
    let mut i = from;
    // By the bits of a word, which may end before the places do.
    while w != 0 {
        if count <= i {
            return;
        }
        overwrite_if(rows, w % 2, 1, i, dst);
        w /= 2;
        i += 1;
    }
}

// Writes the rows that are marked behind the leader o, of `count` rows, over dst, in order: 64 a word.
fn overwrite_marks(rows: &[u64], marks: &[usize], o: usize, count: usize, dst: &mut [u64])
    requires o_lt_count { o < count }
    requires count_bound { count ≤ 512 }
    requires in_bounds { 8 ≤ length marks.now }
    requires dst_in_bounds { count * length dst.old ≤ length rows.now }
    ensures { dst.new ≡ overwritten_by (length dst.old) rows.now
        (marked_behind marks.now o) (o + 1) (count - (o + 1)) dst.old }
{
    let mut k: usize = 0;
    let mut i = o + 1;
    // By words: 64 places a step.
    while i < count {
        overwrite_word(rows, marks[k], i, count, dst);
        k += 1;
        i += 64;
    }
}

// The row that leads a group, with the later ones over it that are marked behind it, of `count` rows, in order.
pub fn put_marked(rows: &[u64], marks: &[usize], o: usize, count: usize, dst: &mut [u64])
    requires o_lt_count { o < count }
    requires count_bound { count ≤ 512 }
    requires in_bounds { 8 ≤ length marks.now }
    requires dst_in_bounds { count * length dst.old ≤ length rows.now }
    ensures { dst.new ≡ row_of_marked (length dst.old) rows.now marks.now o count }
{
    let p = dst.len();
    side_parts::copy_row(dst, side_parts::row(rows, p, o));
    overwrite_marks(rows, marks, o, count, dst);
}
