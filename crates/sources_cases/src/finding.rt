//! The match that is found unsatisfied, or that there is none.
use crate::build::{atom, c, fact_volume, n, rule, x};
use crate::seen::{STALE_ROWS, Seen, open, stale_terms};
use rules::{Atom, Rule};
use sources::{Addition, FactSource, RowTable, find};
use std::alloc::Global;
use std::process::Abort;
use std::test::Fail;
use volumes::FactVolume;

/// This match is found, or none, and then all stays as it is.
pub fn expect_find<S: FactSource>(
    rt: &impl Abort,
    source: &S,
    rule: &Rule,
    seen: Option<Seen>,
) -> Result<(), Fail> {
    let mut stack = STALE_ROWS;
    let mut found = stale_terms();
    let answer = find(rule, source, &mut stack, &mut found);
    assert_eq!(rt; answer, seen.is_some());
    let after = seen.unwrap_or(open(&[], 0, &[]));
    assert_eq!(rt; stack, after.rows);
    assert!(rt; found == after.values);
    Ok(())
}

/// The same on every kind of source, and on piles over them.
fn expect(
    rt: &impl Abort,
    heap: Global,
    rule: &Rule,
    facts: &[Atom],
    seen: Option<Seen>,
) -> Result<(), Fail> {
    let table = RowTable::take_up(facts);
    expect_find(rt, &table, rule, seen)?;
    expect_find(rt, &&table, rule, seen)?;
    let pile = Addition::new(Addition::new(Addition::new(table)));
    expect_find(rt, &pile, rule, seen)?;
    let bytes = fact_volume(heap, facts)?;
    let volume = FactVolume::take_up(bytes.as_slice());
    expect_find(rt, &volume, rule, seen)?;
    expect_find(rt, &Addition::new(volume), rule, seen)
}

/// No facts, no match, and one that is satisfied.
#[test]
fn none(rt: HostRuntime) -> Result<(), Fail> {
    let rule = rule(&[atom(1, &[x(0)])], &[atom(2, &[x(0), x(1)])])?;
    expect(&rt, rt.alloc(), &rule, &[], None)?;
    let other = [atom(2, &[c(1), c(1)])];
    expect(&rt, rt.alloc(), &rule, &other, None)?;
    let facts = [atom(1, &[c(1)]), atom(2, &[c(2), n(0)])];
    let seen = open(&[0], 0, &[c(1)]);
    expect(&rt, rt.alloc(), &rule, &facts, Some(seen))?;
    let facts = [atom(1, &[c(1)]), atom(2, &[c(1), n(0)])];
    expect(&rt, rt.alloc(), &rule, &facts, None)
}

/// Those that are satisfied are passed over: the second of three ways, and the last. Entries of other variables stay.
#[test]
fn passed_over(rt: HostRuntime) -> Result<(), Fail> {
    let rule = rule(
        &[atom(1, &[x(3), x(4)]), atom(2, &[x(4), x(5)])],
        &[atom(3, &[x(5), x(0)])],
    )?;
    let facts = [
        atom(1, &[c(1), c(5)]),
        atom(2, &[c(5), c(6)]),
        atom(2, &[c(5), c(7)]),
        atom(3, &[c(6), n(0)]),
        atom(2, &[c(5), c(8)]),
    ];
    let seen = open(&[0, 2], 3, &[c(1), c(5), c(7)]);
    expect(&rt, rt.alloc(), &rule, &facts, Some(seen))?;
    let facts = [
        atom(1, &[c(1), c(5)]),
        atom(2, &[c(5), c(6)]),
        atom(2, &[c(5), c(7)]),
        atom(3, &[c(6), n(0)]),
        atom(2, &[c(5), c(8)]),
        atom(3, &[c(7), c(7)]),
    ];
    let seen = open(&[0, 4], 3, &[c(1), c(5), c(8)]);
    expect(&rt, rt.alloc(), &rule, &facts, Some(seen))?;
    let facts = [
        atom(3, &[c(8), n(9)]),
        atom(1, &[c(1), c(5)]),
        atom(2, &[c(5), c(6)]),
        atom(2, &[c(5), c(7)]),
        atom(3, &[c(6), n(0)]),
        atom(2, &[c(5), c(8)]),
        atom(3, &[c(7), c(7)]),
    ];
    expect(&rt, rt.alloc(), &rule, &facts, None)
}

/// A head of two atoms that share an existential variable: each has a row, but no two together.
#[test]
fn apart(rt: HostRuntime) -> Result<(), Fail> {
    let rule = rule(
        &[atom(1, &[x(0)])],
        &[atom(2, &[x(0), x(1)]), atom(3, &[x(1)])],
    )?;
    let facts = [atom(1, &[c(1)]), atom(2, &[c(1), n(4)]), atom(3, &[n(5)])];
    let seen = open(&[0], 0, &[c(1)]);
    expect(&rt, rt.alloc(), &rule, &facts, Some(seen))?;
    let facts = [atom(1, &[c(1)]), atom(2, &[c(1), n(5)]), atom(3, &[n(5)])];
    expect(&rt, rt.alloc(), &rule, &facts, None)
}
