// A record's labels as the program prints them, written into a lent buffer.
ghost use Rattle.std.specs.Prelude.{◌≡◌, [], ◌∷◌, ◌++◌, ◌+◌, ◌≤◌, length};
ghost use Rattle.writing.specs.Written.{Put};
ghost use Rattle.record_tags.specs.Lenient.{labels_of};
ghost use Rattle.model.specs.Numerals.{hexadecimal};
ghost use Rattle.vecop_run.specs.label_text.LabelText.{is_special, is_plain, escaped, escaped_all, tag_of, tag_text};
ghost use Rattle.vecop_run.specs.label_text.LabelText.{braced_tags, labels_text};

use numerals::put_digits;
use writing::{put_byte, put_bytes};

#[tactic(auto, unfolding(crate::specs::label_text::LabelText::among))]
fn is_special(b: u8) -> bool
    ensures { result ≡ is_special b }
{
    matches!(b, b'"' | b'\\' | b'{' | b'}' | b',' | b'=' | b'%')
}

fn is_plain(b: u8) -> bool
    ensures { result ≡ is_plain b }
{
    matches!(b, 0x21..=0x7e) && !is_special(b)
}

fn put_percent(out: &mut [u8], at: usize, b: u8) -> usize
    requires { at + length (37 ∷ hexadecimal 2 b) ≤ length out.old }
    ensures { Put out.old at (37 ∷ hexadecimal 2 b) out.new result }
{
    let o = put_byte(out, at, b'%');
    put_digits(out, o, 16, 2, b as u64)
}

fn put_escaped(out: &mut [u8], at: usize, b: u8) -> usize
    requires { at + length (escaped b) ≤ length out.old }
    ensures { Put out.old at (escaped b) out.new result }
{
    if is_plain(b) {
        put_byte(out, at, b)
    } else {
        put_percent(out, at, b)
    }
}

fn put_field(out: &mut [u8], at: usize, s: &[u8]) -> usize
    requires { at + length (escaped_all s.now) ≤ length out.old }
    ensures { Put out.old at (escaped_all s.now) out.new result }
{
    let mut o = at;
    for b in s {
        o = put_escaped(out, o, *b);
    }
    o
}

fn put_tag(out: &mut [u8], at: usize, key: &[u8], value: &[u8]) -> usize
    requires { at + length (tag_text (tag_of key.now value.now)) ≤ length out.old }
    ensures { Put out.old at (tag_text (tag_of key.now value.now)) out.new result }
{
    let p = put_field(out, at, key);
    let q = put_bytes(out, p, b"=\"");
    let r = put_field(out, q, value);
    put_byte(out, r, b'"')
}

fn put_next_tag(out: &mut [u8], at: usize, key: &[u8], value: &[u8]) -> usize
    requires { at + length ((44 ∷ []) ++ tag_text (tag_of key.now value.now)) ≤ length out.old }
    ensures { Put out.old at ((44 ∷ []) ++ tag_text (tag_of key.now value.now)) out.new result }
{
    let o = put_byte(out, at, b',');
    put_tag(out, o, key, value)
}

// The tags of a record in braces, parted by commas.
fn put_braced(out: &mut [u8], at: usize, rec: &[u8]) -> usize
    requires { at + length (braced_tags (labels_of rec.now).tags) ≤ length out.old }
    ensures { Put out.old at (braced_tags (labels_of rec.now).tags) out.new result }
{
    let mut o = put_byte(out, at, b'{');
    let mut first = true;
    for tag in record_tags::tags_of(rec) {
        o = if first {
            put_tag(out, o, tag.key, tag.value)
        } else {
            put_next_tag(out, o, tag.key, tag.value)
        };
        first = false;
    }
    put_byte(out, o, b'}')
}

pub(crate) fn put_labels(out: &mut [u8], at: usize, rec: &[u8]) -> usize
    requires { at + length (labels_text (labels_of rec.now)) ≤ length out.old }
    ensures { Put out.old at (labels_text (labels_of rec.now)) out.new result }
{
    let o = put_field(out, at, record_tags::name_of(rec));
    put_braced(out, o, rec)
}
