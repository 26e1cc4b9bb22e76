//! What a line of a table says, and whether it is so.
use grades::{Pairs, Slots, least_numbering};
use std::process::Abort;
use std::test::Fail;

/// The two relations, and the slots held.
#[derive(Drop)]
pub struct Given {
    pub held: Slots,
    pub at_most: Pairs,
    pub less_than: Pairs,
}

/// All 64 slots.
pub fn all_slots() -> Slots {
    let mut slots = Slots::new();
    for slot in 0..64 {
        slots.put(slot);
    }
    slots
}

impl Given {
    /// All slots are held, and nothing is related.
    pub fn all() -> Given {
        Given {
            held: all_slots(),
            at_most: Pairs::new(),
            less_than: Pairs::new(),
        }
    }

    pub fn numbers(&self) -> Option<[u8; 64]> {
        least_numbering(self.held, &self.at_most, &self.less_than)
    }
}

/// A pair is written `0<=1` or `0<1`.
fn read_pair(given: &mut Given, word: &str) -> Result<(), Fail> {
    if let Some((first, second)) = word.split_once("<=") {
        given.at_most.put(read_slot(first)?, read_slot(second)?);
        return Ok(());
    }
    let (first, second) = word.split_once("<").ok_or("no pair")?;
    given.less_than.put(read_slot(first)?, read_slot(second)?);
    Ok(())
}

fn read_slot(word: &str) -> Result<usize, Fail> {
    Ok(word.parse::<usize>().map_err(|_| Fail::new("no slot"))?)
}

/// The numbers of the slots from 0 on, with `-` for a slot that is not held, as are all slots after them. Sets which slots
/// are held.
fn read_numbers(given: &mut Given, words: &str) -> Result<[u8; 64], Fail> {
    let mut numbers = [0; 64];
    given.held = Slots::new();
    for (slot, word) in words.split_whitespace().enumerate() {
        if word != "-" {
            let number = numbers.get_mut(slot).ok_or("too many numbers")?;
            *number = word.parse::<u8>().map_err(|_| Fail::new("no number"))?;
            given.held.put(slot);
        }
    }
    Ok(numbers)
}

fn expect_line(rt: &impl Abort, line: &str) -> Result<(), Fail> {
    let (pairs, expected) = line.split_once(": ").ok_or("no colon")?;
    let mut given = Given::all();
    for word in pairs.split_whitespace() {
        read_pair(&mut given, word)?;
    }
    if expected == "none" {
        assert!(rt; given.numbers().is_none(), "{line}");
        return Ok(());
    }
    let numbers = read_numbers(&mut given, expected)?;
    assert!(rt; given.numbers() == Some(numbers), "{line}");
    Ok(())
}

/// Each line of the table is right, as `0<1 1<=2: 0 1 1` with the slots' numbers, or `0<0: none` where no numbering keeps the
/// relations between all slots.
pub fn expect_lines(rt: &impl Abort, table: &str) -> Result<(), Fail> {
    for line in table.lines() {
        let line = line.trim();
        if !line.is_empty() {
            expect_line(rt, line)?;
        }
    }
    Ok(())
}
