// A left series under a set rule: the ends of what it meets, and whether it answers.
ghost use Rattle.std.specs.Prelude.{◌≡◌, ◌≤◌, length};
ghost use Rattle.plan.specs.Sets.{needs_match, drops_empty, left_answers};
ghost use Rattle.side_parts.specs.Lent.{RowsHeld};
ghost use Rattle.index_lists.specs.Places.{Within};
ghost use Rattle.set_series.specs.set_points.Points.{meant};
ghost use Rattle.set_plan.specs.Codes.{fallen};
ghost use Rattle.set_plan.specs.left_series.Answering.{Answered};

use set_series::SetRule;

// The ends of what a left series meets, by those of its key among `count` right series.
pub(crate) fn met_ends(falls: bool, count: usize, e: usize) -> usize
    ensures { result ≡ fallen falls count e }
{
    if falls && end_codes::side_first(e) == count {
        return 0;
    }
    e
}

// Whether a rule drops a left series that meets no right one.
fn needs_match(rule: SetRule) -> bool
    ensures { result ≡ needs_match (meant rule) }
{
    matches!(rule, SetRule::WhereFound)
}

// Whether a rule drops a left series that is left without readings.
fn drops_empty(rule: SetRule) -> bool
    ensures { result ≡ drops_empty (meant rule) }
{
    !matches!(rule, SetRule::Filled)
}

// Whether a left series that meets the listed right ones is in the answer.
fn answers_with(rule: SetRule, left: &[u64], rows: &[u64], places: &[usize]) -> bool
    requires { Within (length left.now) rows.now places.now }
    ensures { result ≡ left_answers (meant rule) (length left.now) rows.now
        places.now left.now }
{
    if places.is_empty() {
        return !needs_match(rule);
    }
    !drops_empty(rule) || set_series::leaves(rule, left, rows, places)
}

// Whether a left series is in the answer, by the ends of what it meets; the places are listed in a part that is lent.
pub(crate) fn left_answers(
    rule: SetRule,
    left: &[u64],
    keys: &[usize],
    rows: &[u64],
    e: usize,
    places: &mut [usize],
) -> bool
    requires rows_held { RowsHeld (length left.now) rows.now keys.now }
    requires keys_in_bounds { length keys.now ≤ length places.old }
    ensures { Answered (meant rule) left.now keys.now rows.now e
        places.old places.new result }
{
    let m = index_lists::met(
        keys,
        end_codes::side_first(e),
        end_codes::side_last(e),
        places,
    );
    answers_with(rule, left, rows, &places[..m])
}
