// Requests for an aggregate, taken from bytes.
ghost use Rattle.std.specs.Prelude.{◌≡◌};
ghost use Rattle.model.specs.Aggregation as Model;
ghost use Rattle.query.specs.declared.aggregations.AggregationError.TheVariants.{BadAggregate, Malformed};
ghost use Rattle.query.specs.aggregations.Requests.{AggregateBy, GroupingBy, is_list, TakenAs};

use crate::list_ends;

#[derive(Clone, Copy, Debug, PartialEq, Eq)]
pub enum Aggregate {
    Sum,
    Min,
    Max,
    Count,
    Avg,
}

// A byte that stands for no aggregate.
#[derive(Clone, Copy, Debug, PartialEq, Eq)]
pub struct UnknownAggregate(pub u8);

// An aggregate by the byte of a request that stands for it.
impl TryFrom<u8> for Aggregate {
    type Error = UnknownAggregate;

    ghost try_from_gives = { AggregateBy };

    fn try_from(b: u8) -> Result<Self, UnknownAggregate> {
        match b {
            0 => Ok(Aggregate::Sum),
            1 => Ok(Aggregate::Min),
            2 => Ok(Aggregate::Max),
            3 => Ok(Aggregate::Count),
            4 => Ok(Aggregate::Avg),
            _ => Err(UnknownAggregate(b)),
        }
    }
}

#[derive(Clone, Copy, Debug, PartialEq, Eq)]
pub enum Grouping {
    By,
    Without,
}

// A byte that stands for no grouping.
#[derive(Clone, Copy, Debug, PartialEq, Eq)]
pub struct UnknownGrouping(pub u8);

// A grouping by the byte of a request that stands for it.
impl TryFrom<u8> for Grouping {
    type Error = UnknownGrouping;

    ghost try_from_gives = { GroupingBy };

    fn try_from(b: u8) -> Result<Self, UnknownGrouping> {
        match b {
            0 => Ok(Grouping::By),
            1 => Ok(Grouping::Without),
            _ => Err(UnknownGrouping(b)),
        }
    }
}

// A request for an aggregate, by value. Its list is the request's bytes from 2 on.
#[derive(Clone, Copy)]
pub struct Aggregation {
    pub aggregate: Aggregate,
    pub grouping: Grouping,
}

// Why a request for an aggregate is refused.
#[derive(Clone, Copy, Debug, PartialEq, Eq)]
pub enum AggregationError {
    BadAggregate,
    Malformed,
}

// A byte that stands for no aggregate is refused as a bad aggregate.
impl From<UnknownAggregate> for AggregationError {
    ghost from_gives = { λ _ e. e ≡ BadAggregate };

    fn from(_: UnknownAggregate) -> Self {
        AggregationError::BadAggregate
    }
}

// A byte that stands for no grouping makes a request malformed.
impl From<UnknownGrouping> for AggregationError {
    ghost from_gives = { λ _ e. e ≡ Malformed };

    fn from(_: UnknownGrouping) -> Self {
        AggregationError::Malformed
    }
}

// Whether the bytes are one list, with nothing behind it.
fn is_list(s: &[u8]) -> bool
    ensures { result ≡ is_list s.now }
{
    list_ends::list_end(s) == Some(s.len())
}

pub fn take_aggregation(s: &[u8]) -> Result<Aggregation, AggregationError>
    ensures { TakenAs s.now (Model.take_aggregation s.now) result }
{
    let [a, ..] = s else {
        return Err(AggregationError::Malformed);
    };
    let aggregate = Aggregate::try_from(*a)?;
    let [_, g, list @ ..] = s else {
        return Err(AggregationError::Malformed);
    };
    let grouping = Grouping::try_from(*g)?;
    if !is_list(list) {
        return Err(AggregationError::Malformed);
    }
    Ok(Aggregation {
        aggregate,
        grouping,
    })
}
