// The key numbers of both sides of a call.
#![tactic(auto)]

mod dropped; // series with only missing readings taken out

ghost use Rattle.std.specs.Prelude.{◌≡◌, ◌+◌, ◌*◌, ◌≤◌, length};
ghost use Rattle.operator.specs.Kinds.{kind_of};
ghost use Rattle.model.specs.Limits.{max_series};
ghost use Rattle.labels.specs.Names.{names_of};
ghost use Rattle.labels.specs.Matchings.{matching_of};
ghost use Rattle.side_parts.specs.Sides.{labels_in, Positions};
ghost use Rattle.side_parts.specs.Lent.{lent};
ghost use Rattle.keyed_sides.specs.Keyed.{drops_missing, kept_keys, BothNumbered};

use key_numbers::{HashedSide, KeyRule};
use labels::Matching;
use operator::Operator;

// Numbers the keys of both sides, with room for their hashes.
fn number_hashed(
    matching: Matching,
    names: &[u8],
    labels: [&[u8]; 2],
    at: [&[usize]; 2],
    left_hashes: &mut [u64],
    right_hashes: &mut [u64],
    left_keys: &mut [usize],
    right_keys: &mut [usize],
)
    requires positions { Positions (lent labels 0) (lent at 0) }
    requires at_len { length (lent at 0) ≡ length left_keys.old + 1 }
    requires left_hashes_len { length left_hashes.old ≡ length left_keys.old }
    requires positions_2 { Positions (lent labels 1) (lent at 1) }
    requires at_len_2 { length (lent at 1) ≡ length right_keys.old + 1 }
    requires right_hashes_len { length right_hashes.old ≡ length right_keys.old }
    ensures { BothNumbered (matching_of matching) (names_of names.now) (labels_in (lent labels.entry 0) (lent at.entry 0))
        (labels_in (lent labels.entry 1) (lent at.entry 1)) left_keys.new right_keys.new }
{
    let rule = KeyRule {
        named: false,
        matching,
        list: names,
    };
    key_numbers::number_left(labels[0], at[0], rule, left_hashes, left_keys);
    let left = HashedSide {
        array: labels[0],
        at: at[0],
        hashes: left_hashes,
    };
    key_numbers::number_right(left, labels[1], at[1], rule, right_hashes, right_keys);
}

// Numbers the keys of both sides by first place, the left ones first.
pub fn number_keys(
    matching: Matching,
    names: &[u8],
    labels: [&[u8]; 2],
    at: [&[usize]; 2],
    left_keys: &mut [usize],
    right_keys: &mut [usize],
)
    requires positions { Positions (lent labels 0) (lent at 0) }
    requires at_len { length (lent at 0) ≡ length left_keys.old + 1 }
    requires left_keys_len_bound { length left_keys.old ≤ max_series }
    requires positions_2 { Positions (lent labels 1) (lent at 1) }
    requires at_len_2 { length (lent at 1) ≡ length right_keys.old + 1 }
    requires right_keys_len_bound { length right_keys.old ≤ max_series }
    ensures { BothNumbered (matching_of matching) (names_of names.now) (labels_in (lent labels.entry 0) (lent at.entry 0))
        (labels_in (lent labels.entry 1) (lent at.entry 1)) left_keys.new right_keys.new }
{
    let mut left_hashes = [0u64; 512];
    let mut right_hashes = [0u64; 512];
    let n = left_keys.len();
    let m = right_keys.len();
    number_hashed(
        matching,
        names,
        labels,
        at,
        &mut left_hashes[..n],
        &mut right_hashes[..m],
        left_keys,
        right_keys,
    );
}

// Takes the series with only missing readings out, where the operator asks for it.
pub fn drop_for(
    op: Operator,
    p: usize,
    rows: [&[u64]; 2],
    left_keys: &mut [usize],
    right_keys: &mut [usize],
)
    requires rows_len { length (lent rows 0) ≡ length left_keys.old * p }
    requires rows_len_2 { length (lent rows 1) ≡ length right_keys.old * p }
    ensures left_keys_after { left_keys.new ≡ kept_keys (drops_missing (kind_of op)) p (lent rows.entry 0) left_keys.old }
    ensures right_keys_after { right_keys.new ≡ kept_keys (drops_missing (kind_of op)) p (lent rows.entry 1) right_keys.old }
{
    if op.is_logical_op() || op.is_comparison() {
        return;
    }
    dropped::drop_missing(rows[0], p, left_keys);
    dropped::drop_missing(rows[1], p, right_keys);
}
