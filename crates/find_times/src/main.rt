//! Prints for each rule of the volume on standard input, and for tables of several sizes, whether the rule has a match that is
//! not satisfied there, with what the variable 0 is given, and how many facts there are once the rule is applied by that match.
//! Given a number of rounds, does each so often and prints the times too.
#![tactic(auto)]

mod rows;
mod works;

use inputs::{read_rounds, read_volume};
use rows::make_rows;
use rules::Term;
use sources::{FactSource, RowTable};
use std::alloc::Global;
use std::io;
use std::num::NonZeroU32;
use std::time::Clock;
use timing::time;
use volumes::{NumberedRule, RuleVolume, check_rules};
use works::{Applying, Finding};

/// How many rows the tables have. The last is as many as a source may have: there no application fits.
const SIZES: [u16; 6] = [256, 512, 1024, 2048, 4092, 4096];

/// Prints the end of a line: the time, where rounds are given.
fn print_end<R: Print>(rt: &R, time: u128, rounds: Option<NonZeroU32>) -> io::Result<()> {
    if rounds.is_some() {
        println!(rt; " {time}")
    } else {
        println!(rt; "")
    }
}

/// Prints how many facts there are after the application.
fn print_applied<R: Print + Clock>(
    rt: &R,
    rule: &NumberedRule,
    found: &[Term; 12],
    table: &RowTable,
    rounds: Option<NonZeroU32>,
) -> io::Result<()> {
    let number = rule.number;
    let size = table.count();
    let work = Applying {
        rule: &rule.rule,
        found: *found,
        table: *table,
    };
    let (answer, time) = time(&work, rt, rounds.unwrap_or(NonZeroU32::MIN))?;
    let (applied, addition) = answer;
    let facts = addition.count();
    match applied {
        Ok(()) => print!(rt; "apply {number} {size} {facts}")?,
        Err(_) => print!(rt; "apply {number} {size} declined")?,
    }
    print_end(rt, time, rounds)
}

/// Prints both lines for a rule and a table, the second one where there is a match to apply the rule by.
fn print_found<R: Print + Clock>(
    rt: &R,
    rule: &NumberedRule,
    table: &RowTable,
    rounds: Option<NonZeroU32>,
) -> io::Result<()> {
    let number = rule.number;
    let size = table.count();
    let work = Finding {
        rule: &rule.rule,
        table: *table,
    };
    let (answer, time) = time(&work, rt, rounds.unwrap_or(NonZeroU32::MIN))?;
    let (yes, _, found) = answer;
    if !yes {
        print!(rt; "find {number} {size} none")?;
        return print_end(rt, time, rounds);
    }
    let value = found[0];
    print!(rt; "find {number} {size} {value}")?;
    print_end(rt, time, rounds)?;
    print_applied(rt, rule, &found, table, rounds)
}

/// Prints the lines for a rule.
fn print_rule<R: Print + Clock>(
    rt: &R,
    rule: &NumberedRule,
    heap: Global,
    rounds: Option<NonZeroU32>,
) -> io::Result<()> {
    for size in SIZES {
        let rows = make_rows(size, heap)?;
        let table = RowTable::take_up(rows.as_slice());
        print_found(rt, rule, &table, rounds)?;
    }
    Ok(())
}

/// Prints the lines for every rule.
fn print_all<R: Print + Clock>(
    rt: &R,
    rules: &RuleVolume,
    heap: Global,
    rounds: Option<NonZeroU32>,
) -> io::Result<()> {
    for index in 0..rules.count() {
        let Some(rule) = rules.rule(index) else {
            break;
        };
        print_rule(rt, &rule, heap, rounds)?;
    }
    Ok(())
}

fn main(rt: HostRuntime) -> io::Result<()> {
    let rounds = read_rounds(&rt)?;
    let bytes = read_volume(rt.stdin(), rt.alloc())?;
    let bytes = bytes.as_slice();
    match check_rules(bytes) {
        Ok(_) => print_all(&rt, &RuleVolume::take_up(bytes), rt.alloc(), rounds),
        Err(fault) => println!(rt; "{fault}"),
    }
}
