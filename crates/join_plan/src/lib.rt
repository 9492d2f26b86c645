// A join planned: each many-side series with every same-key one-side series, its merges tried, its answer rows listed
// by their codes, and the members of each row marked. The first merge that fails ends it.
#![tactic(auto)]

mod lead_marks; // the one-side series that a many-side series meets, each by its leader, and the leaders' last places
mod join_leads; // the merges behind the leaders tried; the rows that they give, listed and marked
mod place_plans; // one many-side place: its leaders marked, its rows planned

ghost use Rattle.std.specs.Prelude.{◌≡◌, length};
ghost use Rattle.side_parts.specs.Lent.{sides, shape_of, BothHeld};
ghost use Rattle.answers.specs.Plans.{PlannedAs};
ghost use Rattle.join_series.specs.Works.{many_side, work_by};
ghost use Rattle.join_plan.specs.Plans.{first_clash, join_codes, early_codes, noted_codes, MarksPlanned, one_twice};
ghost use Rattle.join_plan.specs.place_plans.Places.{Clean};

use answers::{Clash, Twice};
use join_series::Work;
use side_parts::Shape;

// A merge that fails is one of the one side, which is right where the many side is left.
fn one_twice(left: bool, clash: Clash) -> Twice
    ensures { result ≡ one_twice left clash }
{
    if left {
        Twice::Right(clash)
    } else {
        Twice::Left(clash)
    }
}

// Plans a join, the many side first of the two: its first clash, or its answer rows noted in `codes`, as far as they
// have room, with eight words of marks for each.
pub fn plan_join(
    w: Work,
    lists: [&[u8]; 2],
    shape: Shape,
    labels: [&[u8]; 2],
    at: [&[usize]; 2],
    keys: [&[usize]; 2],
    rows: [&[u64]; 2],
    codes: &mut [usize],
    marks: &mut [usize],
) -> Result<usize, Twice>
    requires both_held { let s = sides (shape_of shape) labels at keys rows in BothHeld s }
    requires clean { Clean 0 marks.old }
    ensures planned_as { let s = sides (shape_of shape) labels.entry at.entry keys.entry rows.entry in
        PlannedAs (first_clash (work_by w lists.entry) (many_side w) s) (join_codes (work_by w lists.entry) s)
        (early_codes (work_by w lists.entry) (many_side w) s) codes.old codes.new result }
    ensures marks_planned { let s = sides (shape_of shape) labels.entry at.entry keys.entry rows.entry in
        MarksPlanned (work_by w lists.entry) s (length (noted_codes (work_by w lists.entry) (many_side w) s))
        codes.new marks.old marks.new }
{
    let many = keys[0];
    let one = keys[1];
    let count = one.len();
    let mut ends = [0usize; 512];
    key_ends::side_ends(one, many, &mut ends);
    let mut leads = [0usize; 512];
    let mut lasts = [0usize; 512];
    // the hashes of a place's leaders, then a row that their merges are tried in
    let mut work = [0u64; 1024];
    let mut n: usize = 0;
    for m in 0..many.len() {
        let k = many[m];
        if k != key_ends::DROPPED {
            let c = ends[m];
            place_plans::place_leads(
                m, k, c, labels, at, one, lists, &mut leads, &mut lasts, &mut work,
            );
            n = place_plans::plan_place(
                m,
                c,
                n,
                w.allowance,
                rows[1],
                &leads[..count],
                &lasts,
                &mut work[..shape.points],
                codes,
                marks,
            )
            .map_err(|clash| one_twice(w.left, clash))?;
        }
    }
    Ok(n)
}
