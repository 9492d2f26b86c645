// An operator over two rows into a third.
#![tactic(auto)]

mod arithmetic; // the arithmetic operators on two readings
mod comparisons; // the six comparisons of two readings, plain and bool

ghost use Rattle.std.specs.Prelude.{◌≡◌, length, slice_index, EachIndex};
ghost use Rattle.model.specs.Reading.{scalar_op};
ghost use Rattle.model.specs.Row.{zip_with};

use arithmetic::{op_div, op_minus, op_mul, op_plus};
use comparisons::{compare_eq, compare_gt, compare_gte, compare_lt, compare_lte, compare_neq};
use operator::Operator;

// What f gives of two readings, point by point.
pub fn zip_rows<F: Fn(u64, u64) -> u64>(f: F, left: &[u64], right: &[u64], out: &mut [u64])
    requires callable { F.IsAlwaysCallable f }
    requires left_len { length left.now ≡ length out.old }
    requires right_len { length right.now ≡ length out.old }
    ensures { EachIndex out.new (λ k. F.post f (slice_index left.now k) (slice_index right.now k) (slice_index out.new k)) }
{
    for i in 0..out.len() {
        out[i] = f(left[i], right[i]);
    }
}

// The operator's readings, point by point; no reading for one that is neither arithmetic nor a comparison. The choice
// stands outside the loop: inside, it would cost more than the work.
#[tactic(auto, using(crate::proofs::Zipping::zipped), unfolding(model::specs::Reading::scalar_op))]
pub fn apply_rows(op: Operator, as_bool: bool, left: &[u64], right: &[u64], out: &mut [u64])
    requires left_len { length left.now ≡ length out.old }
    requires right_len { length right.now ≡ length out.old }
    ensures { out.new ≡ zip_with (scalar_op op as_bool) left.now right.now }
{
    match op {
        Operator::Add => zip_rows(op_plus, left, right, out),
        Operator::Div => zip_rows(op_div, left, right, out),
        Operator::Mod => zip_rows(remainder::remainder, left, right, out),
        Operator::Mul => zip_rows(op_mul, left, right, out),
        Operator::Sub => zip_rows(op_minus, left, right, out),
        Operator::Eql => zip_rows(move |x, y| compare_eq(x, y, as_bool), left, right, out),
        Operator::NotEq => zip_rows(move |x, y| compare_neq(x, y, as_bool), left, right, out),
        Operator::Gt => zip_rows(move |x, y| compare_gt(x, y, as_bool), left, right, out),
        Operator::Gte => zip_rows(move |x, y| compare_gte(x, y, as_bool), left, right, out),
        Operator::Lt => zip_rows(move |x, y| compare_lt(x, y, as_bool), left, right, out),
        Operator::Lte => zip_rows(move |x, y| compare_lte(x, y, as_bool), left, right, out),
        _ => zip_rows(|_x, _y| reading::MISSING, left, right, out),
    }
}
