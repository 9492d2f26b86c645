// The code of an answer row of a join: a many-side place and a one-side place as one number, packed and read off it. A
// number, since plans list the codes of rows in lent arrays of numbers.
#![tactic(auto)]

ghost use Rattle.std.specs.Prelude.{◌≡◌, ◌≤◌};
ghost use Rattle.plan.specs.Joins.{row_code, many_place, one_place};

// The code of the answer row of a many-side place and a one-side place.
pub fn row_code(m: usize, o: usize) -> usize
    requires m_bound { m ≤ 512 }
    requires o_bound { o ≤ 512 }
    ensures { result ≡ row_code m o }
{
    m * 512 + o
}

// The many-side place of a code.
pub fn many_place(x: usize) -> usize
    ensures { result ≡ many_place x }
{
    x / 512
}

// The one-side place of a code.
pub fn one_place(x: usize) -> usize
    ensures { result ≡ one_place x }
{
    x % 512
}
