// The set operators, by what they differ in, each under its name in the Rust.
ghost use Rattle.std.specs.Prelude.{◌≡◌, false, true};
ghost use Rattle.operator.specs.Kinds.{where_found, where_none, filled, kind_of};
ghost use Rattle.plan.specs.Sets.{set_work, is_scalar, work_by};
ghost use Rattle.side_parts.specs.Sides.{labels_in};
ghost use Rattle.side_parts.specs.Lent.{RecordsHeld, Formed};
ghost use Rattle.set_plan.specs.set_operators.Works.{meant_work};

use operator::Operator;
use set_series::SetRule;

// The rule on readings; whether left series without a match meet the first right one; whether right series that match
// none are added.
#[derive(Clone, Copy)]
pub(crate) struct SetWork {
    pub rule: SetRule,
    pub falls: bool,
    pub adds: bool,
}

// Keeps left readings where a matching right series has one.
fn binary_op_and() -> SetWork
    ensures { meant_work result ≡ set_work where_found false true }
{
    SetWork {
        rule: SetRule::WhereFound,
        falls: false, // `and` does not fall back
        adds: false,
    }
}

// Keeps left series, their gaps filled from matching right ones; then right series that match none.
fn binary_op_or() -> SetWork
    ensures { meant_work result ≡ set_work filled false true }
{
    SetWork {
        rule: SetRule::Filled,
        falls: false,
        adds: true,
    }
}

// Keeps left readings where no matching right series has one.
fn binary_op_unless() -> SetWork
    ensures { meant_work result ≡ set_work where_none false true }
{
    SetWork {
        rule: SetRule::WhereNone,
        falls: false,
        adds: false,
    }
}

// As `and`; a left series without a match meets a scalar right side.
fn binary_op_if(scalar: bool) -> SetWork
    ensures { meant_work result ≡ set_work where_found scalar false }
{
    SetWork {
        rule: SetRule::WhereFound,
        falls: scalar,
        adds: false,
    }
}

// As `unless`; a left series without a match meets a scalar right side.
fn binary_op_if_not(scalar: bool) -> SetWork
    ensures { meant_work result ≡ set_work where_none scalar false }
{
    SetWork {
        rule: SetRule::WhereNone,
        falls: scalar,
        adds: false,
    }
}

// Keeps left series, their gaps filled from matching right ones or a scalar right side; the right series where there is
// no left one.
fn binary_op_default(scalar: bool, none: bool) -> SetWork
    ensures { meant_work result ≡ set_work filled scalar none }
{
    SetWork {
        rule: SetRule::Filled,
        falls: scalar,
        adds: none,
    }
}

// What a set operator does, by whether the right side is a scalar and the left one has no series.
pub(crate) fn set_work(op: Operator, scalar: bool, none: bool) -> SetWork
    ensures { meant_work result ≡ work_by (kind_of op) scalar none }
{
    match op {
        Operator::And => binary_op_and(),
        Operator::Or => binary_op_or(),
        Operator::Unless => binary_op_unless(),
        Operator::If => binary_op_if(scalar),
        Operator::IfNot => binary_op_if_not(scalar),
        _ => binary_op_default(scalar, none),
    }
}

// Whether a side is one series without name and tags: its record is two bytes.
pub(crate) fn is_scalar(array: &[u8], at: &[usize]) -> bool
    requires records_held { RecordsHeld array.now at.now }
    requires formed { Formed array.now at.now }
    ensures { result ≡ is_scalar (labels_in array.now at.now) }
{
    at.len() == 2 && side_parts::record(array, at, 0).len() == 2
}
