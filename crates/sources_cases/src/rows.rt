//! Rows that are checked and taken up.
use crate::build::{atom, c, many_rows, n, x};
use crate::expect::{Expected, expect_facts, told};
use rules::Atom;
use sources::{RowTable, check_rows};
use std::process::Abort;
use std::test::Fail;

/// The rows pass, and are taken up as they are.
fn expect_passed(rt: &impl Abort, rows: &[Atom]) -> Result<(), Fail> {
    assert!(rt; check_rows(rows).is_ok());
    expect_facts(rt, &RowTable::take_up(rows), rows)
}

/// The rows have this fault, and are taken up as no rows.
fn expect_declined(rt: &impl Abort, rows: &[Atom], expected: Expected) -> Result<(), Fail> {
    let Err(fault) = check_rows(rows) else {
        return Err(Fail::new("accepted"));
    };
    assert_eq!(rt; told(fault), expected);
    expect_facts(rt, &RowTable::take_up(rows), &[])
}

/// An atom with another arity than it has terms.
fn with_arity(atom: Atom, arity: u8) -> Atom {
    Atom { arity, ..atom }
}

#[test]
fn passed(rt: HostRuntime) -> Result<(), Fail> {
    expect_passed(&rt, &[])?;
    expect_passed(&rt, &[atom(1, &[c(1)])])?;
    expect_passed(&rt, &[atom(1, &[n(1), c(2), n(3), c(4)])])
}

/// A variable past the terms that count does no harm.
#[test]
fn uncounted(rt: HostRuntime) -> Result<(), Fail> {
    expect_passed(&rt, &[with_arity(atom(1, &[c(1), x(0)]), 1)])
}

#[test]
fn arities(rt: HostRuntime) -> Result<(), Fail> {
    let fact = atom(1, &[c(1), c(2), c(3), c(4)]);
    for arity in 1..5 {
        expect_passed(&rt, &[with_arity(fact, arity)])?;
    }
    for arity in [0, 5, 6, 255] {
        expect_declined(&rt, &[with_arity(fact, arity)], (16, 7, 0, 0))?;
        expect_declined(&rt, &[fact, with_arity(fact, arity)], (16, 7, 0, 1))?;
    }
    Ok(())
}

/// A variable in each place in turn.
#[test]
fn kinds(rt: HostRuntime) -> Result<(), Fail> {
    let fact = atom(1, &[c(1), n(2), c(3), n(4)]);
    for place in 0..4 {
        let mut terms = fact.terms;
        terms[place] = x(0);
        let wrong = Atom { terms, ..fact };
        expect_declined(&rt, &[wrong, fact], (16, 7, 0, 0))?;
        expect_declined(&rt, &[fact, fact, wrong, fact, wrong], (16, 7, 0, 2))?;
    }
    Ok(())
}

/// Row 4,096 is accepted, and one more is declined, whatever the rows are.
#[test]
fn most_rows(rt: HostRuntime) -> Result<(), Fail> {
    let mut rows = many_rows(rt.alloc(), 4096)?;
    expect_passed(&rt, rows.as_slice())?;
    rows.push(atom(1, &[c(0)]))?;
    expect_declined(&rt, rows.as_slice(), (15, 7, 0, 4097))?;
    rows.push(atom(1, &[x(0)]))?;
    expect_declined(&rt, rows.as_slice(), (15, 7, 0, 4098))
}

/// The last row that is looked at.
#[test]
fn last_row(rt: HostRuntime) -> Result<(), Fail> {
    let mut rows = many_rows(rt.alloc(), 4095)?;
    rows.push(atom(1, &[x(0)]))?;
    expect_declined(&rt, rows.as_slice(), (16, 7, 0, 4095))?;
    rows.push(atom(1, &[x(0)]))?;
    expect_declined(&rt, rows.as_slice(), (15, 7, 0, 4097))
}
