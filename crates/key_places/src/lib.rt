// The first and the last place of a key among key numbers, and whether these are all of its places.
#![tactic(auto)]

ghost use Rattle.std.specs.Prelude.{◌≡◌, ◌≤◌, ◌<◌, length};
ghost use Rattle.side_parts.specs.Lent.{lent};
ghost use Rattle.plan.specs.Keys.{first_of, last_of};
ghost use Rattle.end_codes.specs.Codes.{left_last, right_last};
ghost use Rattle.key_places.specs.Two.{are_two, both_two};

// The first place of a key, or the number of keys.
pub fn first_of(keys: &[usize], k: usize) -> usize
    ensures { result ≡ first_of keys.now k }
{
    keys.iter().position(|x| *x == k).unwrap_or(keys.len())
}

// The last place of a key, or the number of keys.
pub fn last_of(keys: &[usize], k: usize) -> usize
    ensures { result ≡ last_of keys.now k }
{
    keys.iter().rposition(|x| *x == k).unwrap_or(keys.len())
}

// Whether a key has exactly two places, its first and its last: they differ, with none of it between them.
#[tactic(auto, unfolding(crate::specs::Two::are_two))]
pub fn are_two(keys: &[usize], k: usize, first: usize, last: usize) -> bool
    requires { last ≤ length keys.now }
    ensures { result ≡ are_two keys.now k first last }
{
    first < last && last - (first + 1) <= first_of(&keys[first + 1..last], k)
}

// Whether a code has exactly two series on each side: its ends there, with none of their key between them.
#[tactic(auto, unfolding(crate::specs::Two::both_two))]
pub fn both_two(keys: [&[usize]; 2], code: usize) -> bool
    requires code_in_bounds { left_last code < length (lent keys 0) }
    requires code_in_bounds_2 { right_last code < length (lent keys 1) }
    ensures { result ≡ both_two (lent keys.entry 0) (lent keys.entry 1) code }
{
    let [lkeys, rkeys] = keys;
    let left = end_codes::left_last(code);
    let right = end_codes::right_last(code);
    are_two(lkeys, lkeys[left], end_codes::left_first(code), left)
        && are_two(rkeys, rkeys[right], end_codes::right_first(code), right)
}
