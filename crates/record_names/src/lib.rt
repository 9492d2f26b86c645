// The name of a label record: measured, and written at its place.
#![tactic(auto)]

ghost use Rattle.std.specs.Prelude.{◌≡◌, cond, [], ◌+◌, ◌-◌, ◌≤◌, length};
ghost use Rattle.model.specs.Record.{encode_field};
ghost use Rattle.record_tags.specs.Lenient.{labels_of};
ghost use Rattle.writing.specs.Written.{Put};

use fields::Span;

// The bytes of a record's name, with their length, or of an empty one.
pub fn name_size(rec: &[u8], keep: bool) -> usize
    ensures { result ≡ length (encode_field (cond keep (labels_of rec.now).name [])) }
{
    if keep {
        match fields::field_at(rec, 0) {
            Some(Span { start: _, end }) => end,
            None => 1,
        }
    } else {
        1
    }
}

// Writes a record's name, or an empty one.
pub fn put_name(out: &mut [u8], at: usize, rec: &[u8], keep: bool) -> usize
    requires { at + length (encode_field (cond keep (labels_of rec.now).name [])) ≤ length out.old }
    ensures { Put out.old at (encode_field (cond keep (labels_of rec.now).name [])) out.new result }
{
    if keep {
        match fields::field_at(rec, 0) {
            Some(Span { start: _, end }) => writing::put_bytes(out, at, &rec[..end]),
            None => writing::put_byte(out, at, 0),
        }
    } else {
        writing::put_byte(out, at, 0)
    }
}
