// Edits a many-side record from a source for each case on standard input, and writes a line for each: whether a second source gives the same
// tags, a hash of the tags, how many tags and bytes are measured, and the edited record, where it has no more than 32 tags.
// A case is a part: a byte that is 1 where the name is reset, the join list and the skip list, each a part, and the three records. A part is
// two bytes of length, the low byte first, and that many bytes.
#![tactic(auto)]

ghost use Rattle.std.specs.Prelude.{◌≤◌, length};
ghost use Rattle.model.specs.Limits.{max_label_bytes};
ghost use Rattle.set_tags.specs.Records.{ShortRecords};

use case_parts::part_at;
use case_text::{print, print_bool, print_front, print_size, read_full};
use operator::Operator;
use set_tags::Naming;
use std::io;

// The edited record: tags, bytes, and what stands in a buffer of 187s with the record at place 2, up to the byte behind it.
fn edit<'a>(
    rt: &impl Print,
    many: &'a [u8],
    source: &'a [u8],
    join: &[u8],
    skip: &[u8],
    naming: Naming,
) -> io::Result<()>
    requires { ShortRecords many.now source.now }
{
    let z = set_tags::set_tags_size(many, source, join, skip, naming);
    print_size(rt, z.tags, z.bytes)?;
    let mut out = [187u8; 20000];
    if z.tags <= Operator::MAX_TAGS {
        if z.bytes <= 19000 {
            let e = set_tags::set_tags(&mut out, 2, many, source, join, skip, naming);
            print_front(rt, &out, e)?;
        }
    }
    Ok(())
}

// The edited tags of two sources, compared and hashed.
fn compare<'a>(
    rt: &impl Print,
    many: &'a [u8],
    source: &'a [u8],
    other: &'a [u8],
    join: &[u8],
    skip: &[u8],
) -> io::Result<()> {
    print_bool(rt, set_tags::same_edited(many, source, other, join, skip))?;
    print!(rt; "{:016x} ", set_tags::hash_edited(many, source, join, skip))
}

// The record at a place; nothing where it is refused.
fn record_at<'a>(s: &'a [u8], at: usize) -> &'a [u8]
    ensures { length result.now ≤ length s.now }
{
    match label_records::read_record(s, at) {
        Ok(next) => &s[at..next],
        Err(_) => &s[..0],
    }
}

fn answer(rt: &impl Print, case: &[u8]) -> io::Result<()>
    requires { length case.now ≤ max_label_bytes }
{
    let join = part_at(case, 1);
    let a = 3 + join.len();
    let skip = part_at(case, a);
    let b = a + 2 + skip.len();
    let many = record_at(case, b);
    let c = b + many.len();
    let source = record_at(case, c);
    let d = c + source.len();
    let other = record_at(case, d);
    if other.len() == 0 {
        return print(rt, b"refused\n");
    }
    let naming = set_tags::naming_of(join, skip, case[0] == 1);
    compare(rt, many, source, other, join, skip)?;
    edit(rt, many, source, join, skip, naming)?;
    print(rt, b"\n")
}

fn run(rt: &impl Print, s: &[u8]) -> io::Result<()> {
    // A case is as long as its parts are: its place is no count.
    let mut p: usize = 0;
    while p < s.len() {
        let case = part_at(s, p);
        answer(rt, case)?;
        p += 2 + case.len();
    }
    Ok(())
}

fn main(rt: HostRuntime) -> io::Result<()> {
    let mut input = [0u8; 262144];
    let n = read_full(&rt, &mut input)?;
    run(&rt, &input[..n])
}
