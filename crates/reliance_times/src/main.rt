//! Asks of every two rules of the volume on standard input whether the second positively relies on the first, and
//! whether the first restrains the second, and prints the answers, one to a line. Given a number of rounds, asks each
//! so often and prints the time too.
#![tactic(auto)]

mod asked;

use asked::Asked;
use inputs::{read_rounds, read_volume};
use reliances::Kind;
use std::io;
use std::num::NonZeroU32;
use std::time::Clock;
use volumes::{NumberedRule, RuleVolume, check_rules};

/// Prints a line for the question, with the time where rounds are given.
fn print_line<R: Print + Clock>(
    rt: &R,
    asked: &Asked,
    rounds: Option<NonZeroU32>,
) -> io::Result<()> {
    let (answer, nanoseconds) = asked.answer(rt, rounds.unwrap_or(NonZeroU32::MIN))?;
    if rounds.is_some() {
        println!(rt; "{asked} {answer} {nanoseconds}")
    } else {
        println!(rt; "{asked} {answer}")
    }
}

/// Prints both lines for two rules.
fn print_pair<R: Print + Clock>(
    rt: &R,
    first: &NumberedRule,
    second: &NumberedRule,
    rounds: Option<NonZeroU32>,
) -> io::Result<()> {
    for kind in [Kind::Positive, Kind::Restraint] {
        let asked = Asked {
            kind,
            first,
            second,
        };
        print_line(rt, &asked, rounds)?;
    }
    Ok(())
}

/// Prints the lines for a first rule and every second one.
fn print_lines<R: Print + Clock>(
    rt: &R,
    volume: &RuleVolume,
    first: &NumberedRule,
    rounds: Option<NonZeroU32>,
) -> io::Result<()> {
    for index in 0..volume.count() {
        let Some(second) = volume.rule(index) else {
            break;
        };
        print_pair(rt, first, &second, rounds)?;
    }
    Ok(())
}

/// Prints the lines for every first rule and every second one.
fn print_all<R: Print + Clock>(
    rt: &R,
    volume: &RuleVolume,
    rounds: Option<NonZeroU32>,
) -> io::Result<()> {
    for index in 0..volume.count() {
        let Some(first) = volume.rule(index) else {
            break;
        };
        print_lines(rt, volume, &first, rounds)?;
    }
    Ok(())
}

fn main(rt: HostRuntime) -> io::Result<()> {
    let rounds = read_rounds(&rt)?;
    let bytes = read_volume(rt.stdin(), rt.alloc())?;
    let bytes = bytes.as_slice();
    match check_rules(bytes) {
        Ok(_) => print_all(&rt, &RuleVolume::take_up(bytes), rounds),
        Err(fault) => println!(rt; "{fault}"),
    }
}
