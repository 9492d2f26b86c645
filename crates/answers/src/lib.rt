// What the answers of all operators share: their outcome, what they take and whether it fits, and a row copied.
#![tactic(auto)]

ghost use Rattle.std.specs.Prelude.{◌≡◌, ◌+◌, ◌*◌, ◌≤◌, ◌<◌, length};
ghost use Rattle.model.specs.Limits.{max_series, max_points};
ghost use Rattle.answers.specs.Outcomes.{told, numbers, numbers_of, refused_twice, refused_room};
ghost use Rattle.answers.specs.Outcomes.{refused_query, refused_request};
ghost use Rattle.answers.specs.Tallies.{with_size, room_number, room_refusal, most_bytes};

use kept_labels::Size;
use operator::Operator;
use query::{AggregationError, QueryError};
use side_parts::Shape;

// What a call answers: how many series, on which grid, and their label bytes.
#[derive(Clone, Copy)]
pub struct Answer {
    pub series: usize,
    pub shape: Shape,
    pub bytes: usize,
}

// Why a call is refused. The case `Cut` is also that of sizes above a limit.
#[derive(Clone, Copy, Debug, PartialEq, Eq)]
pub enum Refusal {
    BadOperator,
    Malformed,
    Cut { side: usize, place: usize },
    BadKey { side: usize, place: usize },
    Readings { side: usize },
    Unequal,
    LeftTwice { kept: usize, failed: usize },
    RightTwice { kept: usize, failed: usize },
    TooLarge,
    TooLong,
    BadGrid { side: usize },
    GridsDiffer,
    BadAllowance,
    BadAggregate,
}

// What a call comes to.
pub type Outcome = Result<Answer, Refusal>;

// A refusal in the numbers of 01 and 02: its number and its two fields.
#[derive(Clone, Copy, Debug, PartialEq, Eq)]
pub struct Numbers {
    pub number: usize,
    pub first: usize,
    pub second: usize,
}

// An outcome in the numbers of 01 and 02.
pub type Told = Result<Answer, Numbers>;

fn numbered(number: usize, first: usize, second: usize) -> Numbers
    ensures { result ≡ numbers number first second }
{
    Numbers {
        number,
        first,
        second,
    }
}

// The one place that gives each refusal its number and fields.
pub fn numbers_of(x: Refusal) -> Numbers
    ensures { result ≡ numbers_of x }
{
    match x {
        Refusal::BadOperator => numbered(1, 0, 0),
        Refusal::Malformed => numbered(2, 0, 0),
        Refusal::Cut { side, place } => numbered(3, side, place),
        Refusal::BadKey { side, place } => numbered(4, side, place),
        Refusal::Readings { side } => numbered(5, side, 0),
        Refusal::Unequal => numbered(6, 0, 0),
        Refusal::LeftTwice { kept, failed } => numbered(7, kept, failed),
        Refusal::RightTwice { kept, failed } => numbered(8, kept, failed),
        Refusal::TooLarge => numbered(9, 0, 0),
        Refusal::TooLong => numbered(10, 0, 0),
        Refusal::BadGrid { side } => numbered(11, side, 0),
        Refusal::GridsDiffer => numbered(12, 0, 0),
        Refusal::BadAllowance => numbered(13, 0, 0),
        Refusal::BadAggregate => numbered(14, 0, 0),
    }
}

// Tells an outcome.
pub fn told_as(x: Outcome) -> Told
    ensures { result ≡ told x }
{
    x.map_err(numbers_of)
}

impl From<QueryError> for Refusal {
    ghost from_gives = { λ error refusal. refusal ≡ refused_query error };

    fn from(error: QueryError) -> Refusal {
        match error {
            QueryError::BadOperator => Refusal::BadOperator,
            QueryError::Malformed => Refusal::Malformed,
            QueryError::BadAllowance => Refusal::BadAllowance,
        }
    }
}

impl From<AggregationError> for Refusal {
    ghost from_gives = { λ error refusal. refusal ≡ refused_request error };

    fn from(error: AggregationError) -> Refusal {
        match error {
            AggregationError::BadAggregate => Refusal::BadAggregate,
            AggregationError::Malformed => Refusal::Malformed,
        }
    }
}

// The series kept and the one that failed to merge.
#[derive(Clone, Copy, Debug, PartialEq, Eq)]
pub struct Clash {
    pub kept: usize,
    pub failed: usize,
}

// The first clash of a plan, by its side.
#[derive(Clone, Copy, Debug, PartialEq, Eq)]
pub enum Twice {
    Left(Clash),
    Right(Clash),
}

impl From<Twice> for Refusal {
    ghost from_gives = { λ clash refusal. refusal ≡ refused_twice clash };

    fn from(clash: Twice) -> Refusal {
        match clash {
            Twice::Left(Clash { kept, failed }) => Refusal::LeftTwice { kept, failed },
            Twice::Right(Clash { kept, failed }) => Refusal::RightTwice { kept, failed },
        }
    }
}

// Label bytes of an answer, and whether a record has too many tags.
#[derive(Clone, Copy)]
pub struct Tally {
    pub bytes: usize,
    pub too_many_tags: bool,
}

// The tally with one more record.
pub fn tallied(t: Tally, s: Size) -> Tally
    requires { t.bytes + s.bytes ≤ most_bytes }
    ensures { result ≡ with_size t s }
{
    Tally {
        bytes: t.bytes + s.bytes,
        too_many_tags: t.too_many_tags || Operator::MAX_TAGS < s.tags,
    }
}

// Why an answer has no room: it is above a limit, or longer than a lent output part.
#[derive(Clone, Copy, Debug, PartialEq, Eq)]
pub enum NoRoom {
    TooLarge,
    TooLong,
}

impl From<NoRoom> for Refusal {
    ghost from_gives = { λ why refusal. refusal ≡ refused_room why };

    fn from(why: NoRoom) -> Refusal {
        match why {
            NoRoom::TooLarge => Refusal::TooLarge,
            NoRoom::TooLong => Refusal::TooLong,
        }
    }
}

// Whether an answer is within the limits, then within the lent output parts.
pub fn room_for(
    series: usize,
    points: usize,
    t: Tally,
    labels: usize,
    readings: usize,
) -> Result<(), NoRoom>
    requires series_le_max_series { series ≤ max_series }
    requires points_le_max_points { points ≤ max_points }
    ensures { room_number result ≡ room_refusal series points t labels readings }
{
    if t.too_many_tags || Operator::MAX_LABEL_BYTES < t.bytes {
        return Err(NoRoom::TooLarge);
    }
    if labels < t.bytes || readings < series * points {
        return Err(NoRoom::TooLong);
    }
    Ok(())
}
