// Whether rows merge, told by counting the places where both have a reading; nothing is written.
#![tactic(auto)]

ghost use Rattle.std.specs.Prelude.{◌≡◌, ◌&&◌, length};
ghost use Rattle.model.specs.Row.{overlaps, overwritten, merged};
ghost use Rattle.mergeable.specs.Mergeable.{either_gap, source_first, merged_if, mergeable};

// 1 where one of two readings is missing, else 0.
fn either_gap(x: u64, y: u64) -> usize
    ensures { result ≡ either_gap x y }
{
    (reading::gap(x) | reading::gap(y)) as usize
}

// At how many places both rows have a reading: all places but those where one has none, which are counted in fewer steps.
fn overlaps(dst: &[u64], src: &[u64]) -> usize
    requires { length src.now ≡ length dst.now }
    ensures { result ≡ overlaps dst.now src.now }
{
    let mut n: usize = 0;
    for (x, y) in dst.iter().zip(src) {
        n += either_gap(*x, *y);
    }
    dst.len() - n
}

// Whether src merges into dst; nothing is written.
pub fn merges(dst: &[u64], src: &[u64], allowance: usize) -> bool
    requires { length src.now ≡ length dst.now }
    ensures { merged_if result dst.now src.now ≡ merged allowance dst.now src.now }
{
    if dst.len() < 3 {
        return false;
    }
    overlaps(dst, src) <= allowance
}

// Whether two rows merge, each into its own destination; nothing is written. All four are read in one pass: memory
// serves four rows side by side sooner than two and then two.
pub fn both_merge(
    dst: &[u64],
    src: &[u64],
    other_dst: &[u64],
    other_src: &[u64],
    allowance: usize,
) -> bool
    requires src_len { length src.now ≡ length dst.now }
    requires other_dst_len { length other_dst.now ≡ length dst.now }
    requires other_src_len { length other_src.now ≡ length dst.now }
    ensures { result ≡ (mergeable allowance dst.now src.now
        && mergeable allowance other_dst.now other_src.now) }
{
    let mut n: usize = 0;
    let mut m: usize = 0;
    // An index: zips of four rows are no plainer.
    for i in 0..dst.len() {
        n += either_gap(dst[i], src[i]);
        m += either_gap(other_dst[i], other_src[i]);
    }
    if allowance < dst.len() - n {
        return false;
    }
    if allowance < dst.len() - m {
        return false;
    }
    2 < dst.len()
}

// 1 where z, or what is left of x with y over it, is missing, else 0: with y over x a gap is left where both have one.
fn gap_after(x: u64, y: u64, z: u64) -> usize
    ensures { result ≡ either_gap (source_first x y) z }
{
    ((reading::gap(x) & reading::gap(y)) | reading::gap(z)) as usize
}

// Whether src merges into dst, and then later into what comes of it; nothing is written. They are read in one pass.
pub fn three_merge(dst: &[u64], src: &[u64], later: &[u64], allowance: usize) -> bool
    requires src_len { length src.now ≡ length dst.now }
    requires later_len { length later.now ≡ length dst.now }
    ensures { result ≡ (mergeable allowance dst.now src.now
        && mergeable allowance (overwritten dst.now src.now) later.now) }
{
    let mut n: usize = 0;
    let mut k: usize = 0;
    // An index: zips of three rows are no plainer.
    for i in 0..dst.len() {
        let x = dst[i];
        let y = src[i];
        n += either_gap(x, y);
        k += gap_after(x, y, later[i]);
    }
    if allowance < dst.len() - n {
        return false;
    }
    if allowance < dst.len() - k {
        return false;
    }
    dst.len() > 2
}
