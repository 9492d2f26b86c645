// The plan of one-to-one: every merge tried, then the codes of the answer's rows listed.
#![tactic(auto)]

mod pairs; // which left series begin a pair, and the codes of the pairs
mod pair_checks; // the merges tried, key by key

ghost use Rattle.std.specs.Prelude.{◌≡◌, []};
ghost use Rattle.plan.specs.Pairs.{pairs_clash};
ghost use Rattle.answers.specs.Plans.{PlannedAs};
ghost use Rattle.pair_plan.specs.pairs.Pairing.{pair_codes};
ghost use Rattle.side_parts.specs.Lent.{unlabelled, BothRowsHeld, Sides};

use answers::Twice;

// Every merge tried, then the answer's rows listed by their codes, as far as the list goes.
pub fn plan_pairs(
    allowance: usize,
    p: usize,
    keys: [&[usize]; 2],
    rows: [&[u64]; 2],
    codes: &mut [usize],
) -> Result<usize, Twice>
    requires { let s = unlabelled p keys rows in BothRowsHeld s }
    ensures { let s = unlabelled p keys.entry rows.entry in
        PlannedAs (pairs_clash allowance s 0 s.left.keys) (pair_codes s) [] codes.old codes.new result }
{
    let mut ends = [0usize; 512];
    let mut work = [0u64; 1024];
    key_ends::pair_ends(keys[0], keys[1], &mut ends);
    pair_checks::check_pairs(allowance, p, keys, rows, &ends, &mut work)?;
    Ok(pairs::list_codes(keys[0], keys[1], &ends, codes))
}
