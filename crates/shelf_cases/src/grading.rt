//! The grades of the rules that a shelf holds.
use crate::archive::{admit_frame, admit_link, admit_master, admit_ninth, admit_transitive};
use crate::build::{admit, atom, x};
use crate::expect::{expect_grades, expect_no_grades};
use shelf::{PairCounts, Shelf};
use std::test::Fail;

fn counts(reliances: u16, restraints: u16) -> PairCounts {
    PairCounts {
        reliances,
        restraints,
    }
}

#[test]
fn none_held(rt: HostRuntime) -> Result<(), Fail> {
    expect_grades(&rt, &Shelf::new(), &[], counts(0, 0))
}

#[test]
fn restrained(rt: HostRuntime) -> Result<(), Fail> {
    let mut shelf = Shelf::new();
    admit_master(rt.alloc(), &mut shelf, 3)?;
    expect_grades(&rt, &shelf, &[0], counts(0, 0))?;
    admit_frame(rt.alloc(), &mut shelf, 8)?;
    expect_grades(&rt, &shelf, &[0, 1], counts(0, 1))
}

/// The list goes by rule numbers, and not by the order in which rules came.
#[test]
fn in_falling_order(rt: HostRuntime) -> Result<(), Fail> {
    let mut shelf = Shelf::new();
    admit_master(rt.alloc(), &mut shelf, 8)?;
    admit_transitive(rt.alloc(), &mut shelf, 5)?;
    admit_frame(rt.alloc(), &mut shelf, 3)?;
    expect_grades(&rt, &shelf, &[1, 0, 0], counts(1, 1))
}

/// A rule that comes into a free slot among others.
#[test]
fn after_withdrawal(rt: HostRuntime) -> Result<(), Fail> {
    let mut shelf = Shelf::new();
    admit_frame(rt.alloc(), &mut shelf, 20)?;
    admit_master(rt.alloc(), &mut shelf, 10)?;
    assert!(&rt; shelf.withdraw(20).is_ok());
    expect_grades(&rt, &shelf, &[0], counts(0, 0))?;
    admit_transitive(rt.alloc(), &mut shelf, 15)?;
    admit_frame(rt.alloc(), &mut shelf, 0)?;
    expect_grades(&rt, &shelf, &[1, 0, 0], counts(1, 1))
}

/// A rule that relies on itself counts, and may have any grade.
#[test]
fn with_itself(rt: HostRuntime) -> Result<(), Fail> {
    let mut shelf = Shelf::new();
    admit_transitive(rt.alloc(), &mut shelf, 65535)?;
    expect_grades(&rt, &shelf, &[0], counts(1, 0))
}

/// Rule 7 restrains rule 6 and relies on it.
#[test]
fn no_numbering(rt: HostRuntime) -> Result<(), Fail> {
    let mut shelf = Shelf::new();
    admit_frame(rt.alloc(), &mut shelf, 6)?;
    admit_ninth(rt.alloc(), &mut shelf, 7)?;
    expect_no_grades(&rt, &shelf)?;
    admit_master(rt.alloc(), &mut shelf, 5)?;
    expect_no_grades(&rt, &shelf)?;
    assert!(&rt; shelf.withdraw(7).is_ok());
    expect_grades(&rt, &shelf, &[0, 1], counts(0, 1))
}

/// A full shelf: 64 rules of which each restrains the next.
#[test]
fn full_chain(rt: HostRuntime) -> Result<(), Fail> {
    let mut shelf = Shelf::new();
    let mut expected = [0; 64];
    for i in 0..64u8 {
        admit_link(
            rt.alloc(),
            &mut shelf,
            100 + u16::from(i),
            100 + u16::from(i),
        )?;
        expected[i as usize] = i;
    }
    expect_grades(&rt, &shelf, &expected, counts(0, 63))
}

/// The same with the rules' numbers the other way round.
#[test]
fn full_chain_falling(rt: HostRuntime) -> Result<(), Fail> {
    let mut shelf = Shelf::new();
    let mut expected = [0; 64];
    for i in 0..64u8 {
        admit_link(
            rt.alloc(),
            &mut shelf,
            900 - u16::from(i),
            100 + u16::from(i),
        )?;
        expected[i as usize] = 63 - i;
    }
    expect_grades(&rt, &shelf, &expected, counts(0, 63))
}

/// A full shelf of rules that have nothing to do with one another.
#[test]
fn full_and_unrelated(rt: HostRuntime) -> Result<(), Fail> {
    let mut shelf = Shelf::new();
    for i in 0..64u16 {
        let body = [atom(200 + i, &[x(0)])];
        admit(rt.alloc(), &mut shelf, i, &body, &[atom(300 + i, &[x(0)])])?;
    }
    expect_grades(&rt, &shelf, &[0; 64], counts(0, 0))
}
