//! Counts the matches that each rule of the volume on standard input has on three sources, and how many of them are not
//! satisfied: a table of 4,096 rows, a pile of three additions over it, and a fact volume of its first 2,048 rows. Given a
//! number of rounds, counts so often and prints the times too.
#![tactic(auto)]

mod counts;
mod rows;

use counts::Counted;
use inputs::{read_rounds, read_volume};
use rows::{make_rows, make_volume};
use rules::Rule;
use sources::{Addition, FactSource, RowTable};
use std::io;
use std::num::NonZeroU32;
use std::time::{Clock, Instant};
use volumes::{FactVolume, NumberedRule, RuleVolume, check_rules};

/// The count, and how many nanoseconds it took, by so many in a row.
fn time_count<R: Clock, S: FactSource>(
    rt: &R,
    counted: Counted,
    rule: &Rule,
    source: &S,
    rounds: NonZeroU32,
) -> io::Result<(u64, u128)> {
    let start = Instant::now(rt)?;
    let mut count = counted.count(rule, source);
    for _ in 1..rounds.get() {
        count = counted.count(rule, source);
    }
    let time = start.elapsed(rt)?;
    Ok((count, time.as_nanos() / u128::from(rounds.get())))
}

/// Prints a line for the rule and the source: both counts, and the times where rounds are given.
fn print_line<R: Print + Clock, S: FactSource>(
    rt: &R,
    name: &str,
    rule: &NumberedRule,
    source: &S,
    rounds: Option<NonZeroU32>,
) -> io::Result<()> {
    let number = rule.number;
    let some = rounds.unwrap_or(NonZeroU32::MIN);
    let (all, all_time) = time_count(rt, Counted::Matches, &rule.rule, source, some)?;
    let (left, left_time) = time_count(rt, Counted::Unsatisfied, &rule.rule, source, some)?;
    if rounds.is_some() {
        println!(rt; "{number} {name} {all} {left} {all_time} {left_time}")
    } else {
        println!(rt; "{number} {name} {all} {left}")
    }
}

/// The three sources that are searched.
#[derive(Drop)]
struct Searched<'a> {
    table: RowTable<'a>,
    pile: Addition<Addition<Addition<RowTable<'a>>>>,
    volume: FactVolume<'a>,
}

/// Prints the lines for a rule.
fn print_rule<R: Print + Clock>(
    rt: &R,
    rule: &NumberedRule,
    searched: &Searched,
    rounds: Option<NonZeroU32>,
) -> io::Result<()> {
    print_line(rt, "table", rule, &searched.table, rounds)?;
    print_line(rt, "pile", rule, &searched.pile, rounds)?;
    print_line(rt, "volume", rule, &searched.volume, rounds)
}

/// Prints the lines for every rule.
fn print_all<R: Print + Clock>(
    rt: &R,
    rules: &RuleVolume,
    searched: &Searched,
    rounds: Option<NonZeroU32>,
) -> io::Result<()> {
    for index in 0..rules.count() {
        let Some(rule) = rules.rule(index) else {
            break;
        };
        print_rule(rt, &rule, searched, rounds)?;
    }
    Ok(())
}

fn main(rt: HostRuntime) -> io::Result<()> {
    let rounds = read_rounds(&rt)?;
    let bytes = read_volume(rt.stdin(), rt.alloc())?;
    let bytes = bytes.as_slice();
    let rows = make_rows(rt.alloc())?;
    let facts = make_volume(rt.alloc())?;
    let table = RowTable::take_up(rows.as_slice());
    let searched = Searched {
        table,
        pile: Addition::new(Addition::new(Addition::new(table))),
        volume: FactVolume::take_up(facts.as_slice()),
    };
    match check_rules(bytes) {
        Ok(_) => print_all(&rt, &RuleVolume::take_up(bytes), &searched, rounds),
        Err(fault) => println!(rt; "{fault}"),
    }
}
