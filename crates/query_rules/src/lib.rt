// What a query says of the names of its answer's series.
#![tactic(auto)]

ghost use Rattle.std.specs.Prelude.{◌≡◌};
ghost use Rattle.model.specs.Query.{resets};

use query::Query;

// Whether the names of an answer's series are cleared.
pub fn should_reset_metric_group(q: Query) -> bool
    ensures { result ≡ resets q.operator q.keep_names q.as_bool }
{
    !q.keep_names && !q.operator.is_logical_op() && (q.as_bool || !q.operator.is_comparison())
}
