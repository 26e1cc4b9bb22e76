//! What the works are given: calls, a shelf, and chains of slots.
use crate::works::Numbering;
use grades::{Pairs, Slots};
use reliances::Kind;
use shelf::{Call, Shelf};
use std::alloc::{AllocError, Global};
use volumes::RuleVolume;

/// The rules' numbers.
fn numbers_of(volume: &RuleVolume, heap: Global) -> Result<Vec<u16>, AllocError> {
    let mut numbers = Vec::new(heap);
    for index in 0..volume.count() {
        if let Some(rule) = volume.rule(index) {
            numbers.push(rule.number)?;
        }
    }
    Ok(numbers)
}

/// The admission of each rule, and then the question about each two.
pub(crate) fn calls_for<'a>(
    volume: &RuleVolume<'a>,
    kind: Kind,
    heap: Global,
) -> Result<Vec<Call<'a>>, AllocError> {
    let numbers = numbers_of(volume, heap)?;
    let mut calls = Vec::new(heap);
    for index in 0..numbers.len() {
        calls.push(Call::Admit {
            volume: *volume,
            index,
        })?;
    }
    for first in numbers.as_slice() {
        push_row(kind, *first, numbers.as_slice(), &mut calls)?;
    }
    Ok(calls)
}

/// The question about a first rule and each second one.
fn push_row(
    kind: Kind,
    first: u16,
    numbers: &[u16],
    calls: &mut Vec<Call<'_>>,
) -> Result<(), AllocError> {
    for second in numbers {
        calls.push(Call::Ask {
            kind,
            first,
            second: *second,
        })?;
    }
    Ok(())
}

/// A shelf that holds the rules.
pub(crate) fn shelf_of(volume: &RuleVolume) -> Shelf {
    let mut shelf = Shelf::new();
    for index in 0..volume.count() {
        // The numbers of a volume rise, and it has at most 64 rules: none is refused.
        let _ = shelf.admit(volume, index);
    }
    shelf
}

/// So many slots, each less than the one after it, or before it: of all that was tried, what takes longest to number.
pub(crate) fn chain(slots: usize, up: bool) -> Numbering {
    let mut held = Slots::new();
    let mut less_than = Pairs::new();
    for slot in 0..slots.min(64) {
        held.put(slot);
        if up {
            less_than.put(slot, slot + 1);
        } else {
            less_than.put(slot + 1, slot);
        }
    }
    Numbering {
        held,
        at_most: Pairs::new(),
        less_than,
    }
}
