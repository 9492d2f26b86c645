// A label record read at a place of the label array, or refused.
#![tactic(auto)]

ghost use Rattle.std.specs.Prelude.{◌≡◌, true, ◌&&◌, [], ◌≤◌, length, drop};
ghost use Rattle.model.specs.Labels.{may_follow};
ghost use Rattle.model.specs.Record.{decode_tags, decode};
ghost use Rattle.label_records.specs.Records.{record_answer, decoded_answer, tags_judged};

use operator::Operator;

// Whether a key may follow the key p, where what came before is good. Behind a bad key none is compared.
fn may_follow(p: &[u8], k: &[u8], good: bool) -> bool
    ensures { result ≡ (good && may_follow p.now k.now) }
{
    good && fields::is_below(p, k) && !fields::same_bytes(k, &Operator::METRIC_NAME)
}

// Why a record is refused: its bytes end before it does, it has too many tags, or its keys don't ascend.
#[derive(Clone, Copy, Debug, PartialEq, Eq)]
pub enum RecordFault {
    Cut,
    BadKey,
}

// Where the bytes behind the n tags at a place start. All are walked before their keys are judged.
fn read_tags(s: &[u8], at: usize, n: usize) -> Result<usize, RecordFault>
    requires { at ≤ length s.now }
    ensures { result ≡ tags_judged (length s.now) true [] (decode_tags n (drop at s.now)) }
{
    let mut p = at;
    let mut last = &s[..0];
    let mut good = true;
    for _ in 0..n {
        let key = fields::field_at(s, p).ok_or(RecordFault::Cut)?;
        let value = fields::field_at(s, key.end).ok_or(RecordFault::Cut)?;
        let bytes = &s[key.start..key.end];
        good = may_follow(last, bytes, good);
        last = bytes;
        p = value.end;
    }
    if good {
        Ok(p)
    } else {
        Err(RecordFault::BadKey)
    }
}

// Where the bytes behind the record at a place start.
pub fn read_record(s: &[u8], at: usize) -> Result<usize, RecordFault>
    ensures { record_answer result ≡ decoded_answer (length s.now) (decode (drop at s.now)) }
{
    let name = fields::field_at(s, at).ok_or(RecordFault::Cut)?;
    let count = s.get(name.end).ok_or(RecordFault::Cut)?;
    let n = usize::from(*count);
    if Operator::MAX_TAGS < n {
        return Err(RecordFault::Cut);
    }
    read_tags(s, name.end + 1, n)
}
