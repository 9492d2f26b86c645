// What a join does with two series, and its answer rows by their codes.
#![tactic(auto)]

mod join_rows; // the answer row of a code

pub use join_rows::put_join_row;
use operator::Operator;
use set_tags::Naming;

// What is done with each pair of series: the operator, and whether it gives 1 or 0; whether the many side is the left
// one; who names the answer; and how many places may overlap in a merge.
#[derive(Clone, Copy)]
pub struct Work {
    pub operator: Operator,
    pub as_bool: bool,
    pub left: bool,
    pub naming: Naming,
    pub allowance: usize,
}
