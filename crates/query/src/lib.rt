// Queries, taken from bytes; and requests for an aggregate.
#![tactic(auto)]

mod aggregations; // a request for an aggregate
mod list_ends; // where a label list ends
mod operator_table; // the constant table that a query's operator byte indexes

ghost use Rattle.std.specs.Prelude.{◌≡◌, ◌≤◌, length, drop};
ghost use Rattle.model.specs.Query as Model;
ghost use Rattle.query.specs.operator_table.Table.{carried_by, table_row};
ghost use Rattle.query.specs.declared.QueryError.TheVariants.{BadOperator, Malformed};
ghost use Rattle.query.specs.Queries.{JoinBy, ListsAt, Counts, TakenAs, query_of};

pub use aggregations::{
    Aggregate, Aggregation, AggregationError, Grouping, UnknownAggregate, UnknownGrouping,
    take_aggregation,
};
use labels::{Matching, UnknownMatching};
use operator::{Operator, UnknownOperator};

// The many side of a join is the left one for `GroupLeft`.
#[derive(Clone, Copy, Debug, PartialEq, Eq)]
pub enum Join {
    OneToOne,
    GroupLeft,
    GroupRight,
}

// A byte that stands for no join.
#[derive(Clone, Copy, Debug, PartialEq, Eq)]
pub struct UnknownJoin(pub u8);

// A join by the byte of a query that stands for it; many-to-many, 3, is run as one-to-one.
impl TryFrom<u8> for Join {
    type Error = UnknownJoin;

    ghost try_from_gives = { JoinBy };

    fn try_from(b: u8) -> Result<Self, UnknownJoin> {
        match b {
            0 | 3 => Ok(Join::OneToOne),
            1 => Ok(Join::GroupLeft),
            2 => Ok(Join::GroupRight),
            _ => Err(UnknownJoin(b)),
        }
    }
}

// A query by value. Its matching list is the bytes from 4 to `join_at`; its join list begins there, the allowance behind it.
#[derive(Clone, Copy)]
pub struct Query {
    pub operator: Operator,
    pub matching: Matching,
    pub join: Join,
    pub keep_names: bool,
    pub as_bool: bool,
    pub join_at: usize,
    pub allowance: usize,
}

// Why a query is refused.
#[derive(Clone, Copy, Debug, PartialEq, Eq)]
pub enum QueryError {
    BadOperator,
    Malformed,
    BadAllowance,
}

// A byte that stands for no operator is refused as a bad operator.
impl From<UnknownOperator> for QueryError {
    ghost from_gives = { λ _ e. e ≡ BadOperator };

    fn from(_: UnknownOperator) -> Self {
        QueryError::BadOperator
    }
}

// A byte that stands for no matching makes a query malformed.
impl From<UnknownMatching> for QueryError {
    ghost from_gives = { λ _ e. e ≡ Malformed };

    fn from(_: UnknownMatching) -> Self {
        QueryError::Malformed
    }
}

// A byte that stands for no join makes a query malformed.
impl From<UnknownJoin> for QueryError {
    ghost from_gives = { λ _ e. e ≡ Malformed };

    fn from(_: UnknownJoin) -> Self {
        QueryError::Malformed
    }
}

// Where the join list stands, if the query's bytes from 4 on are two lists and one byte more.
fn join_place(s: &[u8]) -> Option<usize>
    requires { 4 ≤ length s.now }
    ensures { ListsAt s.now result }
{
    let at = 4 + list_ends::list_end(&s[4..])?;
    let end = at + list_ends::list_end(&s[at..])?;
    if end == s.len() - 1 { Some(at) } else { None }
}

// Whether each list that a query does not use is empty.
fn fits(s: &[u8], q: Query) -> bool
    requires { Counts s.now q.join_at }
    ensures { result ≡ Model.fitting (query_of s.now q) }
{
    (q.matching != Matching::All || s[4] == 0) && (q.join != Join::OneToOne || s[q.join_at] == 0)
}

// The query behind an operator that is carried.
fn take_modifier(s: &[u8], operator: Operator) -> Result<Query, QueryError>
    ensures { TakenAs s.now (Model.modified operator (drop 1 s.now)) result }
{
    let [_, matching, join, flags, ..] = s else {
        return Err(QueryError::Malformed);
    };
    let matching = Matching::try_from(*matching)?;
    let join = Join::try_from(*join)?;
    if 3 < *flags {
        return Err(QueryError::Malformed);
    }
    let Some(join_at) = join_place(s) else {
        return Err(QueryError::Malformed);
    };
    let query = Query {
        operator,
        matching,
        join,
        keep_names: *flags % 2 == 1,
        as_bool: 2 <= *flags,
        join_at,
        allowance: usize::from(s[s.len() - 1]),
    };
    if !fits(s, query) {
        return Err(QueryError::Malformed);
    }
    if Operator::MAX_ALLOWANCE < query.allowance {
        return Err(QueryError::BadAllowance);
    }
    Ok(query)
}

// Whether calls run the operator of a byte, by the operator table.
fn is_carried(b: u8) -> bool
    ensures { result ≡ carried_by (table_row b) }
{
    operator_table::operator_row(b).is_some_and(|row| row.carried)
}

pub fn take_query(s: &[u8]) -> Result<Query, QueryError>
    ensures { TakenAs s.now (Model.take_query s.now) result }
{
    let [b, ..] = s else {
        return Err(QueryError::Malformed);
    };
    let operator = Operator::try_from(*b)?;
    if !is_carried(*b) {
        return Err(QueryError::BadOperator);
    }
    take_modifier(s, operator)
}
