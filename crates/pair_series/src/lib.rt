// The answer rows of one-to-one by their codes.
#![tactic(auto)]

mod pair_parts; // two rows on each side, and the operator, part by part
mod pair_rows; // the answer row of a code

pub use pair_rows::put_pair_row;
