// Label records looked up: whether a label is there, and its value.
#![tactic(auto)]

ghost use Rattle.std.specs.Prelude.{◌≡◌};
ghost use Rattle.model.specs.Labels.{value_of};
ghost use Rattle.model.specs.Record.{lookup, value_part};
ghost use Rattle.record_tags.specs.Lenient.{labels_of};
ghost use Rattle.metric_name.specs.Lookups.{found_bytes, found_lookup, state_answer, lookup_answer};

use label_records::RecordFault;
use operator::Operator;

// The value of a key among a record's tags.
fn find_tag<'a>(rec: &'a [u8], key: &[u8]) -> Option<&'a [u8]>
    ensures { found_bytes result ≡ value_of key.now (labels_of rec.now).tags }
{
    for tag in record_tags::tags_of(rec) {
        if fields::same_bytes(tag.key, key) {
            return Some(tag.value);
        }
    }
    None
}

// The value of a label in the record at the start of the bytes; nothing where it is absent.
fn find_value<'a>(labels: &'a [u8], key: &[u8]) -> Result<Option<&'a [u8]>, RecordFault>
    ensures { found_lookup result ≡ lookup labels.now key.now }
{
    label_records::read_record(labels, 0)?;
    if fields::same_bytes(key, &Operator::METRIC_NAME) {
        return Ok(Some(record_tags::name_of(labels)));
    }
    Ok(find_tag(labels, key))
}

// Whether a label is in the record at the start of the bytes.
pub fn tag_state(labels: &[u8], key: &[u8]) -> Result<bool, RecordFault>
    ensures { state_answer result ≡ lookup_answer (lookup labels.now key.now) }
{
    Ok(find_value(labels, key)?.is_some())
}

// The value of a label, as a part of the bytes; nothing unless it is present.
pub fn tag_value<'a>(labels: &'a [u8], key: &[u8]) -> &'a [u8]
    ensures { result.now ≡ value_part (lookup labels.now key.now) }
{
    match find_value(labels, key) {
        Ok(Some(value)) => value,
        Ok(None) => &labels[..0],
        Err(_) => &labels[..0],
    }
}
