// Label records edited by their matching list: measured, and written at their place.
#![tactic(auto)]

ghost use Rattle.std.specs.Prelude.{◌+◌, ◌-◌, ◌≤◌, length};
ghost use Rattle.model.specs.Record.{encode};
ghost use Rattle.model.specs.Edits.{remove_tags_on, remove_tags_ignoring};
ghost use Rattle.labels.specs.Names.{names_of};
ghost use Rattle.record_tags.specs.Lenient.{labels_of};
ghost use Rattle.writing.specs.Written.{Put};
ghost use Rattle.kept_labels.specs.Edited.{Sized};

use kept_labels::Size;
use labels::Matching;
use operator::Operator;

// No function over a matching serves both edits: these four are one call each, and would be left as calls that only pass it on.

pub fn remove_tags_on_size(rec: &[u8], list: &[u8]) -> Size
    ensures { Sized (remove_tags_on (names_of list.now) (labels_of rec.now)) result }
{
    let named = labels::in_list(list, &Operator::METRIC_NAME);
    kept_labels::kept_size(rec, Matching::On, list, named)
}

pub fn remove_tags_on(out: &mut [u8], at: usize, rec: &[u8], list: &[u8]) -> usize
    requires { at + length (encode (remove_tags_on (names_of list.now) (labels_of rec.now))) ≤ length out.old }
    ensures { Put out.old at (encode (remove_tags_on (names_of list.now) (labels_of rec.now)))
        out.new result }
{
    let named = labels::in_list(list, &Operator::METRIC_NAME);
    kept_labels::put_kept(out, at, rec, Matching::On, list, named)
}

pub fn remove_tags_ignoring_size(rec: &[u8], list: &[u8]) -> Size
    ensures { Sized (remove_tags_ignoring (names_of list.now) (labels_of rec.now)) result }
{
    let named = labels::in_list(list, &Operator::METRIC_NAME);
    kept_labels::kept_size(rec, Matching::Ignoring, list, !named)
}

pub fn remove_tags_ignoring(out: &mut [u8], at: usize, rec: &[u8], list: &[u8]) -> usize
    requires { at + length (encode (remove_tags_ignoring (names_of list.now) (labels_of rec.now))) ≤ length out.old }
    ensures { Put out.old at (encode (remove_tags_ignoring (names_of list.now) (labels_of rec.now)))
        out.new result }
{
    let named = labels::in_list(list, &Operator::METRIC_NAME);
    kept_labels::put_kept(out, at, rec, Matching::Ignoring, list, !named)
}
