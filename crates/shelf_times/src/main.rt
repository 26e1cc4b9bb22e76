//! Prints what comes of the check of the volume on standard input; and of a rule volume, how many reliances and restraints
//! the questions about each two of its rules on a shelf find, and the grading of the shelf, and how high a chain of as many
//! slots is numbered. Given a number of rounds, does each so often and prints the times too.
#![tactic(auto)]

mod given;
mod works;
mod yeses;

use given::{calls_for, chain, shelf_of};
use inputs::{read_rounds, read_volume};
use reliances::Kind;
use std::alloc::Global;
use std::io;
use std::marker::PhantomData;
use std::num::NonZeroU32;
use std::time::Clock;
use timing::time;
use volumes::{Entries, Facts, RuleVolume, Rules};
use works::{Calls, Check, Grading};
use yeses::count_yeses;

/// Prints the end of a line: the time, where rounds are given.
fn print_end<R: Print>(rt: &R, time: u128, rounds: Option<NonZeroU32>) -> io::Result<()> {
    if rounds.is_some() {
        println!(rt; " {time}")
    } else {
        println!(rt; "")
    }
}

/// Prints how many rules or facts there are, or the first fault.
fn print_check<E: Entries, R: Print + Clock>(
    rt: &R,
    bytes: &[u8],
    rounds: Option<NonZeroU32>,
) -> io::Result<()> {
    let check = Check::<E> {
        bytes,
        entries: PhantomData,
    };
    let (checked, time) = time(&check, rt, rounds.unwrap_or(NonZeroU32::MIN))?;
    match checked {
        Ok(count) => print!(rt; "check {count}")?,
        Err(fault) => print!(rt; "check {fault}")?,
    }
    print_end(rt, time, rounds)
}

/// Prints how many pairs of rules have the relation.
fn print_asked<R: Print + Clock>(
    rt: &R,
    name: &str,
    volume: &RuleVolume,
    kind: Kind,
    heap: Global,
    rounds: Option<NonZeroU32>,
) -> io::Result<()> {
    let calls = calls_for(volume, kind, heap)?;
    let work = Calls {
        calls: calls.as_slice(),
        heap,
    };
    let (answers, time) = time(&work, rt, rounds.unwrap_or(NonZeroU32::MIN))?;
    let count = count_yeses(answers?.as_slice());
    print!(rt; "{name} {count}")?;
    print_end(rt, time, rounds)
}

/// Prints how many pairs have each relation, where there is a grading, and the refusal where there is none.
fn print_grading<R: Print + Clock>(
    rt: &R,
    volume: &RuleVolume,
    rounds: Option<NonZeroU32>,
) -> io::Result<()> {
    let work = Grading {
        shelf: shelf_of(volume),
    };
    let (graded, time) = time(&work, rt, rounds.unwrap_or(NonZeroU32::MIN))?;
    match graded.0 {
        Ok(counts) => {
            let reliances = counts.reliances;
            let restraints = counts.restraints;
            print!(rt; "grade {reliances} {restraints}")?
        }
        Err(_) => print!(rt; "grade none")?,
    }
    print_end(rt, time, rounds)
}

/// Prints the highest number of a slot of a chain.
fn print_chain<R: Print + Clock>(
    rt: &R,
    name: &str,
    slots: usize,
    up: bool,
    rounds: Option<NonZeroU32>,
) -> io::Result<()> {
    let (numbers, time) = time(&chain(slots, up), rt, rounds.unwrap_or(NonZeroU32::MIN))?;
    let highest = highest(&numbers.unwrap_or([0; 64]));
    print!(rt; "{name} {highest}")?;
    print_end(rt, time, rounds)
}

fn highest(numbers: &[u8]) -> u8 {
    let mut highest: u8 = 0;
    for number in numbers {
        highest = highest.max(*number);
    }
    highest
}

/// Prints the lines for the rules.
fn print_rules<R: Print + Clock>(
    rt: &R,
    volume: &RuleVolume,
    heap: Global,
    rounds: Option<NonZeroU32>,
) -> io::Result<()> {
    print_asked(rt, "reliances", volume, Kind::Positive, heap, rounds)?;
    print_asked(rt, "restraints", volume, Kind::Restraint, heap, rounds)?;
    print_grading(rt, volume, rounds)?;
    print_chain(rt, "up", volume.count(), true, rounds)?;
    print_chain(rt, "down", volume.count(), false, rounds)
}

fn main(rt: HostRuntime) -> io::Result<()> {
    let rounds = read_rounds(&rt)?;
    let bytes = read_volume(rt.stdin(), rt.alloc())?;
    let bytes = bytes.as_slice();
    if bytes.first() == Some(&2) {
        return print_check::<Facts, _>(&rt, bytes, rounds);
    }
    print_check::<Rules, _>(&rt, bytes, rounds)?;
    print_rules(&rt, &RuleVolume::take_up(bytes), rt.alloc(), rounds)
}
