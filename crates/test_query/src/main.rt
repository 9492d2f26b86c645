// Takes the queries of standard input, each after its length (2 bytes), and prints what they ask.
#![tactic(auto)]

use case_parts::part_at;
use case_text::read_full;
use labels::Matching;
use query::{Join, Query, QueryError};
use std::io;

fn matching_name(m: Matching) -> &'static str {
    match m {
        Matching::All => "all",
        Matching::On => "on",
        Matching::Ignoring => "ignoring",
    }
}

fn join_name(j: Join) -> &'static str {
    match j {
        Join::OneToOne => "one",
        Join::GroupLeft => "left",
        Join::GroupRight => "right",
    }
}

fn refusal_number(e: QueryError) -> usize {
    match e {
        QueryError::BadOperator => 1,
        QueryError::Malformed => 2,
        QueryError::BadAllowance => 13,
    }
}

// Comparison, logical, matching, join, flags, whether the name is cleared, the join list's place, the allowance.
fn print_query(rt: &impl Print, q: Query) -> io::Result<()> {
    println!(rt;
        "asked {} {} {} {} {} {} {} {} {}",
        u8::from(q.operator.is_comparison()),
        u8::from(q.operator.is_logical_op()),
        matching_name(q.matching),
        join_name(q.join),
        u8::from(q.keep_names),
        u8::from(q.as_bool),
        u8::from(query_rules::should_reset_metric_group(q)),
        q.join_at,
        q.allowance
    )
}

fn take(rt: &impl Print, s: &[u8]) -> io::Result<()> {
    match query::take_query(s) {
        Ok(q) => print_query(rt, q),
        Err(e) => println!(rt; "refused {} 0 0", refusal_number(e)),
    }
}

// The cases do not step by one: each begins with its length.
fn run(rt: &impl Print, s: &[u8]) -> io::Result<()> {
    let mut p: usize = 0;
    while p < s.len() {
        let query = part_at(s, p);
        take(rt, query)?;
        p += 2 + query.len();
    }
    Ok(())
}

fn main(rt: HostRuntime) -> io::Result<()> {
    let mut input = [0u8; 65536];
    let n = read_full(&rt, &mut input)?;
    run(&rt, &input[..n])
}
