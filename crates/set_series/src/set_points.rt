// A set rule at one point of a left series: the right reading that it meets, and whether a reading is left.
ghost use Rattle.std.specs.Prelude.{◌≡◌, not, ◌<◌, length};
ghost use Rattle.operator.specs.Kinds.{filled, kind_of};
ghost use Rattle.model.specs.Row.{only_missing, zip_with};
ghost use Rattle.plan.specs.Sets.{rule_by, first_at, set_row};
ghost use Rattle.reading.specs.Gaps.{gap_of};
ghost use Rattle.index_lists.specs.Places.{Within};
ghost use Rattle.set_series.specs.set_points.Points.{meant, hit_of, on_reading};

use crate::binaryop;
use operator::Operator;

// Where a left reading stays, by the right ones: where one is found; where none is; everywhere, its gaps filled.
#[derive(Clone, Copy)]
pub enum SetRule {
    WhereFound,
    WhereNone,
    Filled,
}

// The rule of an operator; one that is no set operator has that of `default`.
pub(crate) fn set_rule(op: Operator) -> SetRule
    ensures { meant result ≡ rule_by (kind_of op) }
{
    match op {
        Operator::And => SetRule::WhereFound,
        Operator::If => SetRule::WhereFound,
        Operator::Unless => SetRule::WhereNone,
        Operator::IfNot => SetRule::WhereNone,
        _ => SetRule::Filled,
    }
}

// A reading that a search finds, and the place of its series; MISSING at the place 0 where it finds none.
#[derive(Clone, Copy)]
pub(crate) struct Hit {
    pub place: usize,
    pub reading: u64,
}

// The first reading at a point of the listed series.
pub(crate) fn first_reading(rows: &[u64], p: usize, i: usize, places: &[usize]) -> Hit
    requires i_lt_p { i < p }
    requires within { Within p rows.now places.now }
    ensures { result ≡ hit_of (first_at p rows.now i places.now) }
{
    let mut j: usize = 0;
    // 01: The search over right series stops at the first reading found, which the loop yields.
    loop {
        if places.len() <= j {
            break Hit {
                place: 0,
                reading: reading::MISSING,
            };
        }
        let place = places[j];
        let reading = rows[place * p + i];
        if reading::is_missing(reading) {
            j += 1;
        } else {
            break Hit { place, reading };
        }
    }
}

// 1 where a rule leaves no reading of a left one and a right one that was found or MISSING, else 0.
fn gap_left(rule: SetRule, left: u64, right: u64) -> u64
    ensures { result ≡ gap_of (on_reading (meant rule) left right) }
{
    let a = reading::gap(left);
    let b = reading::gap(right);
    match rule {
        SetRule::WhereFound => a | b,
        SetRule::WhereNone => a | (1 - b),
        SetRule::Filled => a & b,
    }
}

// Whether a rule leaves a reading in a part of a left row that meets one right one. No point waits for a test.
fn part_leaves(rule: SetRule, left: &[u64], right: &[u64]) -> bool
    requires { length right.now ≡ length left.now }
    ensures { result ≡ not (only_missing (zip_with (on_reading (meant rule)) left.now right.now)) }
{
    let mut gap = 1;
    for (x, y) in left.iter().zip(right) {
        gap &= gap_left(rule, *x, *y);
    }
    gap == 0
}

// Whether a rule leaves a reading in a left row that meets one right one: part by part, up to the first that has one.
fn one_leaves(rule: SetRule, left: &[u64], right: &[u64]) -> bool
    requires { length right.now ≡ length left.now }
    ensures { result ≡ not (only_missing (zip_with (on_reading (meant rule)) left.now right.now)) }
{
    let mut i: usize = 0;
    // By parts: 32 points a step, or what is left.
    while i < left.len() {
        let e = left.len().min(i + 32);
        if part_leaves(rule, &left[i..e], &right[i..e]) {
            return true;
        }
        i = e;
    }
    false
}

// Whether a rule leaves a reading in a left row that meets several right ones.
fn several_leave(rule: SetRule, left: &[u64], rows: &[u64], places: &[usize]) -> bool
    requires { Within (length left.now) rows.now places.now }
    ensures { result ≡ not (only_missing (set_row (meant rule) (length left.now) rows.now
        places.now left.now)) }
{
    for (i, x) in left.iter().enumerate() {
        let hit = first_reading(rows, left.len(), i, places);
        if gap_left(rule, *x, hit.reading) == 0 {
            return true;
        }
    }
    false
}

// Whether a rule leaves a reading in a left row.
pub fn leaves(rule: SetRule, left: &[u64], rows: &[u64], places: &[usize]) -> bool
    requires { Within (length left.now) rows.now places.now }
    ensures { result ≡ not (only_missing (set_row (meant rule) (length left.now) rows.now
        places.now left.now)) }
{
    if places.len() == 1 {
        return one_leaves(rule, left, side_parts::row(rows, left.len(), places[0]));
    }
    several_leave(rule, left, rows, places)
}

// A left reading, filled where it is missing from the first listed series that has one.
pub(crate) fn filled_point(left: u64, rows: &[u64], p: usize, i: usize, places: &[usize]) -> u64
    requires i_lt_p { i < p }
    requires within { Within p rows.now places.now }
    ensures { result ≡ on_reading filled left (hit_of (first_at p rows.now i places.now)).reading }
{
    if reading::is_missing(left) {
        let hit = first_reading(rows, p, i, places);
        binaryop::op_default(left, hit.reading)
    } else {
        left
    }
}
