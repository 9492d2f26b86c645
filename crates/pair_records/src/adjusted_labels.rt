// A left record edited as one-to-one edits it, `adjust_binary_op_tags`: measured, and written at its place.
ghost use Rattle.std.specs.Prelude.{◌≡◌, ◌+◌, ◌≤◌, length};
ghost use Rattle.model.specs.Record.{encode};
ghost use Rattle.record_tags.specs.Lenient.{labels_of};
ghost use Rattle.writing.specs.Written.{Put};
ghost use Rattle.kept_labels.specs.Edited.{Sized};
ghost use Rattle.pair_records.specs.adjusted_labels.Edits.{pair_query, keeps_name, edited};

use kept_labels::Size;
use labels::Matching;
use operator::Operator;
use query::Query;

// Whether an edited left label keeps its name.
fn keeps_name(q: Query, names: &[u8]) -> bool
    ensures { result ≡ keeps_name (pair_query names.now q) }
{
    if query_rules::should_reset_metric_group(q) {
        return false;
    }
    match q.matching {
        Matching::All => true,
        Matching::On => q.keep_names || labels::in_list(names, &Operator::METRIC_NAME),
        Matching::Ignoring => !labels::in_list(names, &Operator::METRIC_NAME),
    }
}

// The size of a left record once it is edited.
pub(crate) fn adjusted_size(rec: &[u8], q: Query, names: &[u8]) -> Size
    ensures { Sized (edited (pair_query names.now q) (labels_of rec.now)) result }
{
    let keep = keeps_name(q, names);
    kept_labels::kept_size(rec, q.matching, names, keep)
}

// Writes a left record edited, and gives the place behind it.
pub(crate) fn adjust_binary_op_tags(
    out: &mut [u8],
    at: usize,
    rec: &[u8],
    q: Query,
    names: &[u8],
) -> usize
    requires { at + length (encode (edited (pair_query names.now q) (labels_of rec.now))) ≤ length out.old }
    ensures { Put out.old at (encode (edited (pair_query names.now q) (labels_of rec.now)))
        out.new result }
{
    let keep = keeps_name(q, names);
    kept_labels::put_kept(out, at, rec, q.matching, names, keep)
}
