// The first and the last places of a key, on one side or on two, packed in one number and read off it. Numbers, since
// plans list the codes of rows in lent arrays of numbers.
#![tactic(auto)]

ghost use Rattle.std.specs.Prelude.{◌≡◌, ◌≤◌, ◌<◌};
ghost use Rattle.end_codes.specs.Codes.{codes, side_code, both_code};
ghost use Rattle.end_codes.specs.Codes.{side_first, side_last, left_code, right_code, left_first, left_last, right_first, right_last};

// Above every place on a side.
const PLACES: usize = 1024;

// Above every code of a side.
const CODES: usize = 1048576;

// A first and a last place on a side, as one number.
pub fn side_code(first: usize, last: usize) -> usize
    requires first_bound { first ≤ 512 }
    requires last_bound { last ≤ 512 }
    ensures { result ≡ side_code first last }
{
    first * PLACES + last
}

// The codes of the two sides, as one number.
pub fn both_code(left: usize, right: usize) -> usize
    requires left_lt_codes { left < codes }
    requires right_lt_codes { right < codes }
    ensures { result ≡ both_code left right }
{
    left * CODES + right
}

// The first place of a code of one side.
pub fn side_first(c: usize) -> usize
    ensures { result ≡ side_first c }
{
    c / PLACES
}

// The last place of a code of one side.
pub fn side_last(c: usize) -> usize
    ensures { result ≡ side_last c }
{
    c % PLACES
}

// The left side's part of a code of both.
fn left_code(c: usize) -> usize
    ensures { result ≡ left_code c }
{
    c / CODES
}

// The right side's part of a code of both.
fn right_code(c: usize) -> usize
    ensures { result ≡ right_code c }
{
    c % CODES
}

// The first left place of a code of both.
pub fn left_first(c: usize) -> usize
    ensures { result ≡ left_first c }
{
    side_first(left_code(c))
}

// The last left place of a code of both.
pub fn left_last(c: usize) -> usize
    ensures { result ≡ left_last c }
{
    side_last(left_code(c))
}

// The first right place of a code of both.
pub fn right_first(c: usize) -> usize
    ensures { result ≡ right_first c }
{
    side_first(right_code(c))
}

// The last right place of a code of both.
pub fn right_last(c: usize) -> usize
    ensures { result ≡ right_last c }
{
    side_last(right_code(c))
}
