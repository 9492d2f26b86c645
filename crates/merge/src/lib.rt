// One row merged into another.
#![tactic(auto)]

ghost use Rattle.std.specs.Prelude.{◌≡◌, length};
ghost use Rattle.model.specs.Row.{overwritten};
ghost use Rattle.mergeable.specs.Mergeable.{source_first};
ghost use Rattle.merge.specs.Merging.{MergedAs};

use operator::Operator;

// Why a row is not merged.
#[derive(Clone, Copy, Debug, PartialEq, Eq)]
pub enum MergeError {
    Overlapping,
    Unequal,
    BadAllowance,
}

// The source's reading where it has one, else what the destination has.
fn source_first(x: u64, y: u64) -> u64
    ensures { result ≡ source_first x y }
{
    reading::choose(reading::gap(y), x, y)
}

// Writes the source's readings over the destination's.
pub fn overwrite(dst: &mut [u64], src: &[u64])
    requires { length src.now ≡ length dst.old }
    ensures { dst.new ≡ overwritten dst.old src.now }
{
    for i in 0..dst.len() {
        dst[i] = source_first(dst[i], src[i]);
    }
}

// Writes the source's readings over the destination's into a third row.
pub fn put_overwritten(out: &mut [u64], dst: &[u64], src: &[u64])
    requires dst_len { length dst.now ≡ length out.old }
    requires src_len { length src.now ≡ length out.old }
    ensures { out.new ≡ overwritten dst.now src.now }
{
    rows::zip_rows(source_first, dst, src, out);
}

// Merges src into dst where at most `allowance` places have both; the destination changes only then.
pub fn merge_non_overlapping_timeseries(
    dst: &mut [u64],
    src: &[u64],
    allowance: usize,
) -> Result<(), MergeError>
    ensures { MergedAs allowance dst.old src.now result dst.new }
{
    if Operator::MAX_ALLOWANCE < allowance {
        return Err(MergeError::BadAllowance);
    }
    if dst.len() != src.len() {
        return Err(MergeError::Unequal);
    }
    if !mergeable::merges(dst, src, allowance) {
        return Err(MergeError::Overlapping);
    }
    overwrite(dst, src);
    Ok(())
}
