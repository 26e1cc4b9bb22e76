//! Relations over all 64 slots, and counts.
use crate::expect::{Given, all_slots};
use grades::{Pairs, Slots};

/// Each slot with the next one.
fn chain() -> Pairs {
    let mut pairs = Pairs::new();
    for slot in 0..63 {
        pairs.put(slot, slot + 1);
    }
    pairs
}

/// Each slot with each.
fn all_pairs() -> Pairs {
    let mut pairs = Pairs::new();
    for first in 0..64 {
        for second in 0..64 {
            pairs.put(first, second);
        }
    }
    pairs
}

#[test]
fn chains_of_all(rt: HostRuntime) {
    let mut given = Given::all();
    given.less_than = chain();
    let Some(numbers) = given.numbers() else {
        panic!(&rt; "a chain has a numbering");
    };
    for slot in 0..64 {
        assert_eq!(&rt; numbers[slot] as usize, slot);
    }
    given.at_most = chain();
    assert!(&rt; given.numbers() == Some(numbers));
    given.at_most.put(63, 0);
    assert!(&rt; given.numbers().is_none());
}

/// That there is no numbering shows in the last round.
#[test]
fn declined_late(rt: HostRuntime) {
    let mut given = Given::all();
    given.less_than = chain();
    given.less_than.put(63, 63);
    assert!(&rt; given.numbers().is_none());
}

#[test]
fn chains_of_equals(rt: HostRuntime) {
    let mut given = Given::all();
    given.at_most = chain();
    given.at_most.put(63, 0);
    assert!(&rt; given.numbers() == Some([0; 64]));
    given.at_most = all_pairs();
    assert!(&rt; given.numbers() == Some([0; 64]));
    given.less_than.put(20, 40);
    assert!(&rt; given.numbers().is_none());
}

#[test]
fn pairs_are_counted(rt: HostRuntime) {
    let mut pairs = Pairs::new();
    assert_eq!(&rt; pairs.count(), 0);
    pairs.put(3, 5);
    pairs.put(3, 5);
    pairs.put(5, 3);
    pairs.put(63, 63);
    assert_eq!(&rt; pairs.count(), 3);
    assert!(&rt; pairs.has(3, 5) && pairs.has(5, 3) && pairs.has(63, 63));
    assert!(&rt; !pairs.has(3, 3) && !pairs.has(3, 4) && !pairs.has(0, 0));
    assert_eq!(&rt; chain().count(), 63);
    assert_eq!(&rt; all_pairs().count(), 4096);
}

#[test]
fn over_63_there_is_no_slot(rt: HostRuntime) {
    let mut pairs = Pairs::new();
    pairs.put(64, 0);
    pairs.put(0, 64);
    pairs.put(usize::MAX, usize::MAX);
    assert_eq!(&rt; pairs.count(), 0);
    assert!(&rt; !all_pairs().has(64, 0) && !all_pairs().has(0, 64));
    let mut slots = Slots::new();
    slots.put(64);
    slots.put(usize::MAX);
    slots.put(63);
    assert!(&rt; slots.has(63) && !slots.has(0) && !slots.has(64));
    assert!(&rt; !all_slots().has(64) && !all_slots().has(127));
}
