// Numbers the keys of the two sides of each case on standard input, and writes a line for each: the left side's
// numbers, a bar, and the right side's. A case is a byte for the matching (0 all, 1 on, 2 ignoring; 3 to 5 with the
// name in the key) and three parts: the matching's list, the left label part and the right one, of no points. A part is
// two bytes of length, the low byte first, and that many bytes.
#![tactic(auto)]

ghost use Rattle.std.specs.Prelude.{◌≡◌, ◌+◌, length, None, IfOk, IfSome};
ghost use Rattle.side_parts.specs.Sides.{Positions};
ghost use Rattle.test_keys.specs.Sides.{Side, SideAt};

use case_parts::part_at;
use case_text::{print, print_number, read_full};
use key_numbers::{HashedSide, KeyRule};
use labels::Matching;
use operator::Operator;
use std::io;
use timeseries::VectorFault;

// A side's records, and their positions.
#[derive(Clone, Copy)]
struct Records<'a> {
    array: &'a [u8],
    at: &'a [usize],
}

fn print_numbers(rt: &impl Print, keys: &[usize]) -> io::Result<()> {
    for key in keys {
        print_number(rt, *key)?;
    }
    Ok(())
}

fn number(
    rule: KeyRule,
    left: Records,
    left_hashes: &mut [u64],
    left_keys: &mut [usize],
    right: Records,
    right_hashes: &mut [u64],
    right_keys: &mut [usize],
)
    requires positions { Positions left.array.now left.at.now }
    requires left_at_len { length left.at.now ≡ length left_keys.old + 1 }
    requires left_hashes_len { length left_hashes.old ≡ length left_keys.old }
    requires positions_2 { Positions right.array.now right.at.now }
    requires right_at_len { length right.at.now ≡ length right_keys.old + 1 }
    requires right_hashes_len { length right_hashes.old ≡ length right_keys.old }
{
    key_numbers::number_left(left.array, left.at, rule, left_hashes, left_keys);
    let hashed = HashedSide {
        array: left.array,
        at: left.at,
        hashes: left_hashes,
    };
    key_numbers::number_right(
        hashed,
        right.array,
        right.at,
        rule,
        right_hashes,
        right_keys,
    );
}

fn number_sides(rt: &impl Print, rule: KeyRule, left: Records, right: Records) -> io::Result<()>
    requires side { Side left.array.now left.at.now }
    requires side_2 { Side right.array.now right.at.now }
{
    let n = left.at.len() - 1;
    let m = right.at.len() - 1;
    let mut left_hashes = [0u64; 512];
    let mut left_keys = [0usize; 512];
    let mut right_hashes = [0u64; 512];
    let mut right_keys = [0usize; 512];
    number(
        rule,
        left,
        &mut left_hashes[..n],
        &mut left_keys[..n],
        right,
        &mut right_hashes[..m],
        &mut right_keys[..m],
    );
    print_numbers(rt, &left_keys[..n])?;
    print(rt, b" |")?;
    print_numbers(rt, &right_keys[..m])?;
    print(rt, b"\n")
}

// Tells of a side that is not taken, with 01's number and place.
fn refused(rt: &impl Print, number: usize, place: usize) -> io::Result<Option<usize>>
    ensures { IfOk result (λ n. n ≡ None) }
{
    print(rt, b"refused")?;
    print_number(rt, number)?;
    print_number(rt, place)?;
    print(rt, b"\n")?;
    Ok(None)
}

// Takes a side: how many positions are noted, or none where it is refused.
fn take(rt: &impl Print, labels: &[u8], at: &mut [usize; 513]) -> io::Result<Option<usize>>
    requires { length at.old ≡ 513 }
    ensures { IfOk result (λ n. IfSome n (SideAt labels.now at.new)) }
{
    if labels.len() < Operator::SIZES_LENGTH {
        return refused(rt, 3, 0);
    }
    match timeseries::take_vector(labels, &[], at) {
        Ok(vector) => Ok(Some(vector.series + 1)),
        Err(VectorFault::Cut(place)) => refused(rt, 3, place),
        Err(VectorFault::BadKey(place)) => refused(rt, 4, place),
        Err(VectorFault::Readings) => refused(rt, 5, 0),
        Err(VectorFault::BadGrid) => refused(rt, 11, 0),
    }
}

fn take_sides(rt: &impl Print, rule: KeyRule, left: &[u8], right: &[u8]) -> io::Result<()> {
    let mut left_at = [0usize; 513];
    let Some(n) = take(rt, left, &mut left_at)? else {
        return Ok(());
    };
    let mut right_at = [0usize; 513];
    let Some(m) = take(rt, right, &mut right_at)? else {
        return Ok(());
    };
    let left = Records {
        array: &left[Operator::SIZES_LENGTH..],
        at: &left_at[..n],
    };
    let right = Records {
        array: &right[Operator::SIZES_LENGTH..],
        at: &right_at[..m],
    };
    number_sides(rt, rule, left, right)
}

fn answer(rt: &impl Print, choice: u8, list: &[u8], left: &[u8], right: &[u8]) -> io::Result<()> {
    let rule = KeyRule {
        named: 3 <= choice,
        matching: Matching::try_from(choice % 3).unwrap_or(Matching::Ignoring),
        list,
    };
    take_sides(rt, rule, left, right)
}

fn run(rt: &impl Print, s: &[u8]) -> io::Result<()> {
    // A case is as long as its parts are: its place is no count.
    let mut p = 0;
    while p < s.len() {
        let list = part_at(s, p + 1);
        let left_at = p + 3 + list.len();
        let left = part_at(s, left_at);
        let right_at = left_at + 2 + left.len();
        let right = part_at(s, right_at);
        answer(rt, s[p], list, left, right)?;
        p = right_at + 2 + right.len();
    }
    Ok(())
}

fn main(rt: HostRuntime) -> io::Result<()> {
    let mut input = [0u8; 262144];
    let n = read_full(&rt, &mut input)?;
    run(&rt, &input[..n])
}
