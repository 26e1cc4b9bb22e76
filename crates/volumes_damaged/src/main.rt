//! Damages sample volumes byte by byte, and sees that the check and what is taken up agree on each.
#![tactic(auto)]

mod agreement;
mod tally;

use agreement::entries_agree;
use std::{fs, io};
use tally::Tally;
use volumes::{Facts, Rules, check_facts, check_rules};

const SAMPLES: [&str; 19] = [
    "observatory.vol",
    "night.vol",
    "two-rules.vol",
    "wide.vol",
    "terms.vol",
    "no-rules.vol",
    "no-facts.vol",
    "all-rules.vol",
    "all-facts.vol",
    "declined-1.vol",
    "declined-2.vol",
    "declined-3.vol",
    "declined-4.vol",
    "declined-5.vol",
    "declined-6.vol",
    "declined-7.vol",
    "declined-8.vol",
    "declined-9.vol",
    "declined-10.vol",
];

/// What a byte is changed to, besides itself with the lowest bit turned.
const VALUES: [u8; 7] = [0, 1, 2, 3, 5, 12, 255];

/// What came of the damaged forms of a volume, as rule volumes and as fact volumes.
#[derive(Clone, Copy, Default)]
struct Outcome {
    rules: Tally,
    facts: Tally,
}

impl Outcome {
    fn add(&mut self, bytes: &[u8]) {
        self.rules
            .add(check_rules(bytes), entries_agree::<Rules>(bytes));
        self.facts
            .add(check_facts(bytes), entries_agree::<Facts>(bytes));
    }

    fn disagreements(&self) -> u64 {
        self.rules
            .disagreements
            .wrapping_add(self.facts.disagreements)
    }
}

/// Adds each beginning of the volume, the whole among them.
fn add_beginnings(bytes: &[u8], outcome: &mut Outcome) {
    // By length, since each is another part.
    for n in 0..=bytes.len() {
        outcome.add(&bytes[..n]);
    }
}

/// Adds the volume with the byte at a place changed to another value.
fn add_changed(bytes: &mut [u8], place: usize, value: u8, outcome: &mut Outcome) {
    let Some(byte) = bytes.get(place).copied() else {
        return;
    };
    if value != byte {
        bytes[place] = value;
        outcome.add(bytes);
        bytes[place] = byte;
    }
}

/// Adds the volume with the byte at a place changed to each of the values.
fn add_changes(bytes: &mut [u8], place: usize, outcome: &mut Outcome) {
    for value in VALUES {
        add_changed(bytes, place, value, outcome);
    }
    if let Some(byte) = bytes.get(place).copied() {
        add_changed(bytes, place, byte ^ 1, outcome);
    }
}

fn damage(bytes: &mut [u8]) -> Outcome {
    let mut outcome = Outcome::default();
    add_beginnings(bytes, &mut outcome);
    // By place, since the bytes are changed and changed back in between.
    for place in 0..bytes.len() {
        add_changes(bytes, place, &mut outcome);
    }
    outcome
}

fn main(rt: HostRuntime) -> io::Result<()> {
    let mut disagreements = 0u64;
    for name in SAMPLES {
        let mut bytes = fs::read(&rt, name)?;
        let outcome = damage(bytes.as_mut_slice());
        disagreements = disagreements.wrapping_add(outcome.disagreements());
        println!(rt; "{name} as rules: {}", outcome.rules)?;
        println!(rt; "{name} as facts: {}", outcome.facts)?;
    }
    println!(rt; "disagreements {disagreements}")
}
