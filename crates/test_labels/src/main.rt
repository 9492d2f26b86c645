// Runs the cases on standard input, and writes a line for each. A case is a byte that says what is asked, and three parts: a record, a
// second record or a label, and a list; a part is two bytes of length, the low one first, and its bytes.
#![tactic(auto)]

use case_parts::part_at;
use case_text::{print, print_bool, print_bytes, print_front, print_size, read_full};
use label_records::RecordFault;
use labels::Matching;
use std::io;

// The state and the value of a label.
fn look_up(rt: &impl Print, rec: &[u8], label: &[u8]) -> io::Result<()> {
    match metric_name::tag_state(rec, label) {
        Ok(true) => print(rt, b"present ")?,
        Ok(false) => print(rt, b"absent ")?,
        Err(RecordFault::Cut) => print(rt, b"3 ")?,
        Err(RecordFault::BadKey) => print(rt, b"4 ")?,
    }
    print_bytes(rt, metric_name::tag_value(rec, label))
}

// A record at the start of the bytes.
fn read(rt: &impl Print, s: &[u8]) -> io::Result<()> {
    match label_records::read_record(s, 0) {
        Ok(next) => print!(rt; "ok {next}"),
        Err(RecordFault::Cut) => print(rt, b"3"),
        Err(RecordFault::BadKey) => print(rt, b"4"),
    }
}

// Whether a label is listed, and whether the list is `*`.
fn listed(rt: &impl Print, list: &[u8], label: &[u8]) -> io::Result<()> {
    print_bool(rt, labels::in_list(list, label))?;
    print_bool(rt, labels::is_star(list))
}

// Whether two records have the same key, and the first one's hash.
fn keyed(rt: &impl Print, a: &[u8], b: &[u8], matching: Matching, list: &[u8]) -> io::Result<()> {
    print_bool(rt, signature::same_key(a, b, matching, list))?;
    print!(rt; "{:016x}", signature::hash_key(a, matching, list))
}

// A record with the tags of its key: tags, bytes, and what stands in a buffer of 187s with the record at place 2, up to the byte behind it.
fn kept(
    rt: &impl Print,
    rec: &[u8],
    matching: Matching,
    list: &[u8],
    keep_name: bool,
) -> io::Result<()> {
    let z = kept_labels::kept_size(rec, matching, list, keep_name);
    print_size(rt, z.tags, z.bytes)?;
    let mut out = [187u8; 20000];
    if z.bytes <= 19000 {
        let e = kept_labels::put_kept(&mut out, 2, rec, matching, list, keep_name);
        print_front(rt, &out, e)?;
    }
    Ok(())
}

fn removed_on(rt: &impl Print, rec: &[u8], list: &[u8]) -> io::Result<()> {
    let z = label_edits::remove_tags_on_size(rec, list);
    print_size(rt, z.tags, z.bytes)?;
    let mut out = [187u8; 20000];
    if z.bytes <= 19000 {
        let e = label_edits::remove_tags_on(&mut out, 2, rec, list);
        print_front(rt, &out, e)?;
    }
    Ok(())
}

fn removed_ignoring(rt: &impl Print, rec: &[u8], list: &[u8]) -> io::Result<()> {
    let z = label_edits::remove_tags_ignoring_size(rec, list);
    print_size(rt, z.tags, z.bytes)?;
    let mut out = [187u8; 20000];
    if z.bytes <= 19000 {
        let e = label_edits::remove_tags_ignoring(&mut out, 2, rec, list);
        print_front(rt, &out, e)?;
    }
    Ok(())
}

fn answer(rt: &impl Print, asked: u8, a: &[u8], b: &[u8], list: &[u8]) -> io::Result<()> {
    match asked {
        0 => look_up(rt, a, b)?,
        1 => read(rt, a)?,
        2 => listed(rt, list, b)?,
        3 => keyed(rt, a, b, Matching::All, list)?,
        4 => keyed(rt, a, b, Matching::On, list)?,
        5 => keyed(rt, a, b, Matching::Ignoring, list)?,
        6 => kept(rt, a, Matching::All, list, true)?,
        7 => kept(rt, a, Matching::On, list, false)?,
        8 => kept(rt, a, Matching::Ignoring, list, true)?,
        9 => removed_on(rt, a, list)?,
        10 => removed_ignoring(rt, a, list)?,
        _ => print(rt, b"?")?,
    }
    print(rt, b"\n")
}

fn run(rt: &impl Print, s: &[u8]) -> io::Result<()> {
    // A case is as long as its parts are: its place is no count.
    let mut p: usize = 0;
    while p < s.len() {
        let a = part_at(s, p + 1);
        let b_at = p + 3 + a.len();
        let b = part_at(s, b_at);
        let list_at = b_at + 2 + b.len();
        let list = part_at(s, list_at);
        answer(rt, s[p], a, b, list)?;
        p = list_at + 2 + list.len();
    }
    Ok(())
}

fn main(rt: HostRuntime) -> io::Result<()> {
    let mut input = [0u8; 262144];
    let n = read_full(&rt, &mut input)?;
    run(&rt, &input[..n])
}
