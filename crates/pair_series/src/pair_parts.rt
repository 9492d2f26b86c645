// Two rows put together on each side, and the operator on the two, part by part: a part is short enough to stay at hand
// from one step to the next.
ghost use Rattle.std.specs.Prelude.{◌≡◌, length};
ghost use Rattle.model.specs.Reading.{scalar_op};
ghost use Rattle.model.specs.Row.{zip_with, overwritten};
ghost use Rattle.answers.specs.Outcomes.{starting_with};
ghost use Rattle.pair_series.specs.pair_parts.Parts.{PartsFit};

use operator::Operator;

// The operator on two sides of the same width, each a source over its destination in a work row.
fn put_part(
    op: Operator,
    as_bool: bool,
    left_dst: &[u64],
    left_src: &[u64],
    right_dst: &[u64],
    right_src: &[u64],
    left_work: &mut [u64],
    right_work: &mut [u64],
    out: &mut [u64],
)
    requires left_dst_len { length left_dst.now ≡ length out.old }
    requires left_src_len { length left_src.now ≡ length out.old }
    requires right_dst_len { length right_dst.now ≡ length out.old }
    requires right_src_len { length right_src.now ≡ length out.old }
    requires left_work_len { length left_work.old ≡ length out.old }
    requires right_work_len { length right_work.old ≡ length out.old }
    ensures out_after { out.new ≡ zip_with (scalar_op op as_bool)
        (overwritten left_dst.now left_src.now)
        (overwritten right_dst.now right_src.now) }
    ensures left_work_after { left_work.new ≡ overwritten left_dst.now left_src.now }
    ensures right_work_after { right_work.new ≡ overwritten right_dst.now right_src.now }
{
    merge::put_overwritten(left_work, left_dst, left_src);
    merge::put_overwritten(right_work, right_dst, right_src);
    rows::apply_rows(op, as_bool, left_work, right_work, out);
}

// The operator on two sides, each a source over its destination at the start of a work row.
pub(crate) fn put_parts(
    op: Operator,
    as_bool: bool,
    left_dst: &[u64],
    left_src: &[u64],
    right_dst: &[u64],
    right_src: &[u64],
    left_work: &mut [u64],
    right_work: &mut [u64],
    out: &mut [u64],
)
    requires { PartsFit left_dst.now left_src.now right_dst.now right_src.now left_work.old
        right_work.old out.old }
    ensures out_after { out.new ≡ zip_with (scalar_op op as_bool)
        (overwritten left_dst.now left_src.now)
        (overwritten right_dst.now right_src.now) }
    ensures left_work_after { left_work.new ≡ starting_with (overwritten left_dst.now left_src.now)
        left_work.old }
    ensures right_work_after { right_work.new ≡ starting_with (overwritten right_dst.now right_src.now)
        right_work.old }
{
    let p = out.len();
    let mut from: usize = 0;
    // By parts: 128 points a step, or what is left.
    while from < p {
        let to = p.min(from + 128);
        put_part(
            op,
            as_bool,
            &left_dst[from..to],
            &left_src[from..to],
            &right_dst[from..to],
            &right_src[from..to],
            &mut left_work[from..to],
            &mut right_work[from..to],
            &mut out[from..to],
        );
        from = to;
    }
}
