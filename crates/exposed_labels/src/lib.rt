// A record's name and tags as the format has them: measured, and written at a place of a lent part.
#![tactic(auto)]

ghost use Rattle.std.specs.Prelude.{◌≡◌, ◌+◌, ◌≤◌, length};
ghost use Rattle.writing.specs.Written.{Put};
ghost use Rattle.writing.specs.Measured.{Measured};
ghost use Rattle.record_tags.specs.Lenient.{labels_of};
ghost use Rattle.exposition.specs.Text.{escaped, escaped_all, braced_tags, labels_text};
ghost use Rattle.exposed_labels.specs.Pieces.{letter, led_tag};

// How many backslashes stand before a byte of a value.
#[tactic(auto, unfolding(exposition::specs::Text::escaped))]
fn escapes(b: u8) -> usize
    ensures { Measured (escaped b) 2 (result + 1) }
{
    match b {
        b'\\' | b'"' | b'\n' => 1,
        _ => 0,
    }
}

// The byte that stands behind them.
fn letter_of(b: u8) -> u8
    ensures { result ≡ letter b }
{
    match b {
        b'\n' => b'n',
        _ => b,
    }
}

fn value_size(s: &[u8]) -> usize
    requires { length s.now ≤ 65535 }
    ensures { Measured (escaped_all s.now) 131070 result }
{
    s.iter().map(|b| escapes(*b) + 1).sum()
}

// A backslash is written before each byte; where none belongs, the byte takes its place.
fn put_value(out: &mut [u8], at: usize, s: &[u8]) -> usize
    requires { at + length (escaped_all s.now) ≤ length out.old }
    ensures { Put out.old at (escaped_all s.now) out.new result }
{
    let mut o = at;
    for b in s {
        out[o] = b'\\';
        o += escapes(*b);
        out[o] = letter_of(*b);
        o += 1;
    }
    o
}

// A tag behind a brace or a comma.
fn put_tag(out: &mut [u8], at: usize, lead: u8, key: &[u8], value: &[u8]) -> usize
    requires { at + length (led_tag lead key.now value.now) ≤ length out.old }
    ensures { Put out.old at (led_tag lead key.now value.now)
        out.new result }
{
    out[at] = lead;
    let p = writing::put_bytes(out, at + 1, key);
    out[p] = b'=';
    out[p + 1] = b'"';
    let q = put_value(out, p + 2, value);
    out[q] = b'"';
    q + 1
}

// The tags of a record in braces; nothing where there are none.
fn tags_size(rec: &[u8]) -> usize
    requires { length rec.now ≤ 65535 }
    ensures { Measured (braced_tags (labels_of rec.now).tags) 50331905 result }
{
    let mut before = b'{';
    let mut size: usize = 0;
    for tag in record_tags::tags_of(rec) {
        size += tag.key.len() + value_size(tag.value) + 4;
        before = b',';
    }
    if before == b'{' {
        return size;
    }
    size + 1
}

fn put_tags(out: &mut [u8], at: usize, rec: &[u8]) -> usize
    requires { at + length (braced_tags (labels_of rec.now).tags) ≤ length out.old }
    ensures { Put out.old at (braced_tags (labels_of rec.now).tags) out.new result }
{
    let mut lead = b'{';
    let mut o = at;
    for tag in record_tags::tags_of(rec) {
        o = put_tag(out, o, lead, tag.key, tag.value);
        lead = b',';
    }
    if lead == b'{' {
        return o;
    }
    writing::put_byte(out, o, b'}')
}

// The bytes of a record's name and tags.
pub fn labels_size(rec: &[u8]) -> usize
    requires { length rec.now ≤ 65535 }
    ensures { Measured (labels_text (labels_of rec.now)) 50397440 result }
{
    record_tags::name_of(rec).len() + tags_size(rec)
}

// Writes a record's name and tags, and gives the place behind them.
pub fn put_labels(out: &mut [u8], at: usize, rec: &[u8]) -> usize
    requires { at + length (labels_text (labels_of rec.now)) ≤ length out.old }
    ensures { Put out.old at (labels_text (labels_of rec.now)) out.new result }
{
    let o = writing::put_bytes(out, at, record_tags::name_of(rec));
    put_tags(out, o, rec)
}
