// The answer row of a row code: its one-side row, with the rows over it that are marked behind it, and the operator on
// its many-side row and that.
ghost use Rattle.std.specs.Prelude.{◌≡◌, ◌≤◌, length};
ghost use Rattle.side_parts.specs.Lent.{unlabelled, BothRowsHeld};
ghost use Rattle.join_series.specs.Works.{worked_row};
ghost use Rattle.join_series.specs.join_rows.Rows.{JoinCode, coded_join_row, work_after};

use crate::Work;

// The operator on a many-side row and a one-side row: the left reading is the left operand on both sides.
fn apply_join(w: Work, many: &[u64], one: &[u64], out: &mut [u64])
    requires many_len { length many.now ≡ length out.old }
    requires one_len { length one.now ≡ length out.old }
    ensures { out.new ≡ worked_row w many.now one.now }
{
    let (left, right) = if w.left { (many, one) } else { (one, many) };
    rows::apply_rows(w.operator, w.as_bool, left, right, out);
}

// Writes the answer row of a code, by the eight words of its marks. Rows are put over one another at the start of a
// work row; a one-side row with no other marked behind it goes to the operator as it is.
pub fn put_join_row(
    w: Work,
    keys: [&[usize]; 2],
    rows: [&[u64]; 2],
    code: usize,
    marks: &[usize],
    work: &mut [u64],
    out: &mut [u64],
)
    requires both_rows_held { let s = unlabelled (length out.old) keys rows in BothRowsHeld s }
    requires join_code { let s = unlabelled (length out.old) keys rows in JoinCode s code }
    requires in_bounds { 8 ≤ length marks.now }
    requires out_in_bounds { length out.old ≤ length work.old }
    ensures out_after { let s = unlabelled (length out.old) keys.entry rows.entry in out.new ≡ coded_join_row w s marks.now code }
    ensures work_after { let s = unlabelled (length out.old) keys.entry rows.entry in
        work.new ≡ work_after s marks.now code work.old }
{
    let p = out.len();
    let o = row_codes::one_place(code);
    let many = side_parts::row(rows[0], p, row_codes::many_place(code));
    if row_marks::none_marked(marks) {
        apply_join(w, many, side_parts::row(rows[1], p, o), out);
        return;
    }
    overwriting::put_marked(rows[1], marks, o, keys[1].len(), &mut work[..p]);
    apply_join(w, many, &work[..p], out);
}
