//! The matches of rules on sources, one after another, and whether they are satisfied.
use crate::build::{atom, c, fact_volume, many_rows, n, rule, x};
use crate::seen::{STALE_ROWS, Seen, open, satisfied, stale_terms};
use rules::{Atom, Rule};
use sources::{Addition, FactSource, RowTable, first_match, is_satisfied, next_match};
use std::alloc::Global;
use std::process::Abort;
use std::test::Fail;
use volumes::FactVolume;

/// The match is satisfied by these rows, or not at all.
fn expect_head<S: FactSource>(
    rt: &impl Abort,
    source: &S,
    rule: &Rule,
    seen: Seen,
) -> Result<(), Fail> {
    let mut stack = STALE_ROWS;
    let answer = is_satisfied(rule, source, &mut stack, &seen.values);
    assert_eq!(rt; answer, seen.head.is_some());
    assert_eq!(rt; stack, seen.head.unwrap_or(STALE_ROWS));
    Ok(())
}

/// The rule has these matches on the source, in this order, and no others. After the last one all stays as it is.
fn expect_on<S: FactSource>(
    rt: &impl Abort,
    source: &S,
    rule: &Rule,
    matches: &[Seen],
) -> Result<(), Fail> {
    let mut stack = STALE_ROWS;
    let mut found = stale_terms();
    let mut last = open(&[], 0, &[]);
    let mut more = first_match(rule, source, &mut stack, &mut found);
    for seen in matches {
        assert!(rt; more);
        assert_eq!(rt; stack, seen.rows);
        assert!(rt; found == seen.values);
        expect_head(rt, source, rule, *seen)?;
        more = next_match(rule, source, &mut stack, &mut found);
        last = *seen;
    }
    assert!(rt; !more);
    assert_eq!(rt; stack, last.rows);
    assert!(rt; found == last.values);
    Ok(())
}

/// The same on every kind of source, and on piles over them.
fn expect(
    rt: &impl Abort,
    heap: Global,
    rule: &Rule,
    facts: &[Atom],
    matches: &[Seen],
) -> Result<(), Fail> {
    let table = RowTable::take_up(facts);
    expect_on(rt, &table, rule, matches)?;
    expect_on(rt, &&table, rule, matches)?;
    let pile = Addition::new(Addition::new(Addition::new(table)));
    expect_on(rt, &pile, rule, matches)?;
    let bytes = fact_volume(heap, facts)?;
    let volume = FactVolume::take_up(bytes.as_slice());
    expect_on(rt, &volume, rule, matches)?;
    expect_on(rt, &Addition::new(volume), rule, matches)
}

/// Every row in turn, a fact that stands twice too.
#[test]
fn one_atom(rt: HostRuntime) -> Result<(), Fail> {
    let rule = rule(&[atom(1, &[x(0)])], &[atom(9, &[x(0)])])?;
    let facts = [
        atom(1, &[c(3)]),
        atom(2, &[c(3)]),
        atom(1, &[n(3)]),
        atom(1, &[c(3)]),
    ];
    let matches = [
        open(&[0], 0, &[c(3)]),
        open(&[2], 0, &[n(3)]),
        open(&[3], 0, &[c(3)]),
    ];
    expect(&rt, rt.alloc(), &rule, &facts, &matches)
}

#[test]
fn no_facts(rt: HostRuntime) -> Result<(), Fail> {
    let rule = rule(&[atom(1, &[x(0)])], &[atom(9, &[x(0)])])?;
    expect(&rt, rt.alloc(), &rule, &[], &[])
}

/// The predicate, the arity, a constant, and a variable that stands twice.
#[test]
fn told_apart(rt: HostRuntime) -> Result<(), Fail> {
    let facts = [
        atom(1, &[c(7)]),
        atom(1, &[c(7), c(8)]),
        atom(1, &[n(7), c(8)]),
        atom(2, &[c(8), c(8)]),
        atom(1, &[c(8), c(8)]),
        atom(1, &[c(8), n(8)]),
        atom(1, &[c(8), c(8), c(8)]),
    ];
    let constant = rule(&[atom(1, &[c(7), x(3)])], &[atom(9, &[x(3)])])?;
    let matches = [open(&[1], 3, &[c(8)])];
    expect(&rt, rt.alloc(), &constant, &facts, &matches)?;
    let twice = rule(&[atom(1, &[x(11), x(11)])], &[atom(9, &[x(11)])])?;
    let matches = [open(&[4], 11, &[c(8)])];
    expect(&rt, rt.alloc(), &twice, &facts, &matches)?;
    let ground = rule(&[atom(1, &[c(8), c(8)])], &[atom(2, &[c(8), x(0)])])?;
    let matches = [satisfied(&[4], 0, &[], &[3])];
    expect(&rt, rt.alloc(), &ground, &facts, &matches)
}

/// Two atoms that share a variable: a first row that leads nowhere, and one that leads on twice.
#[test]
fn joined(rt: HostRuntime) -> Result<(), Fail> {
    let rule = rule(
        &[atom(1, &[x(0), x(1)]), atom(2, &[x(1), x(2)])],
        &[atom(3, &[x(2), x(3)])],
    )?;
    let facts = [
        atom(2, &[c(5), c(6)]),
        atom(1, &[c(1), c(4)]),
        atom(1, &[c(1), c(5)]),
        atom(3, &[c(6), n(0)]),
        atom(2, &[c(5), c(7)]),
        atom(1, &[c(2), c(5)]),
    ];
    let matches = [
        satisfied(&[2, 0], 0, &[c(1), c(5), c(6)], &[3]),
        open(&[2, 4], 0, &[c(1), c(5), c(7)]),
        satisfied(&[5, 0], 0, &[c(2), c(5), c(6)], &[3]),
        open(&[5, 4], 0, &[c(2), c(5), c(7)]),
    ];
    expect(&rt, rt.alloc(), &rule, &facts, &matches)
}

/// The second atom has no match at all, or none beside the first.
#[test]
fn no_second(rt: HostRuntime) -> Result<(), Fail> {
    let rule = rule(&[atom(1, &[x(0)]), atom(2, &[x(0)])], &[atom(9, &[x(0)])])?;
    expect(
        &rt,
        rt.alloc(),
        &rule,
        &[atom(1, &[c(1)]), atom(1, &[c(2)])],
        &[],
    )?;
    expect(
        &rt,
        rt.alloc(),
        &rule,
        &[atom(1, &[c(1)]), atom(2, &[c(2)])],
        &[],
    )
}

/// As many atoms as a rule may have, on one fact, and a chain through six.
#[test]
fn six_atoms(rt: HostRuntime) -> Result<(), Fail> {
    let body = [
        atom(1, &[x(0), x(1)]),
        atom(1, &[x(1), x(2)]),
        atom(1, &[x(2), x(3)]),
        atom(1, &[x(3), x(4)]),
        atom(1, &[x(4), x(5)]),
        atom(1, &[x(5), x(6)]),
    ];
    let rule = rule(&body, &[atom(1, &[x(6), x(7)])])?;
    let one = [c(1), c(1), c(1), c(1), c(1), c(1), c(1)];
    let matches = [satisfied(&[0, 0, 0, 0, 0, 0], 0, &one, &[0])];
    expect(&rt, rt.alloc(), &rule, &[atom(1, &[c(1), c(1)])], &matches)?;
    let facts = [
        atom(1, &[c(6), c(7)]),
        atom(1, &[c(5), c(6)]),
        atom(1, &[c(4), c(5)]),
        atom(1, &[c(3), c(4)]),
        atom(1, &[c(2), c(3)]),
        atom(1, &[c(1), c(2)]),
    ];
    let chain = [c(1), c(2), c(3), c(4), c(5), c(6), c(7)];
    let matches = [open(&[5, 4, 3, 2, 1, 0], 0, &chain)];
    expect(&rt, rt.alloc(), &rule, &facts, &matches)
}

/// A head is mapped with the universal variables as they are: its existential ones are the same in all its atoms, and may
/// be given any terms.
#[test]
fn heads(rt: HostRuntime) -> Result<(), Fail> {
    let rule = rule(
        &[atom(1, &[x(0)])],
        &[atom(2, &[x(0), x(1)]), atom(3, &[x(1), x(2), x(1)])],
    )?;
    let facts = [
        atom(1, &[c(1)]),
        atom(2, &[c(1), c(4)]),
        atom(2, &[c(1), n(4)]),
        atom(3, &[n(4), c(1), n(4)]),
        atom(1, &[c(2)]),
        atom(2, &[c(2), c(6)]),
        atom(3, &[c(6), c(6), n(6)]),
        atom(1, &[c(3)]),
        atom(3, &[c(4), c(1), c(5)]),
    ];
    let matches = [
        satisfied(&[0], 0, &[c(1)], &[2, 3]),
        open(&[4], 0, &[c(2)]),
        open(&[7], 0, &[c(3)]),
    ];
    expect(&rt, rt.alloc(), &rule, &facts, &matches)
}

/// Where no match stands on the stack, the next one is the first.
#[test]
fn restarted(rt: HostRuntime) -> Result<(), Fail> {
    let rule = rule(&[atom(1, &[x(0)]), atom(2, &[x(0)])], &[atom(9, &[x(0)])])?;
    let facts = [
        atom(1, &[c(1)]),
        atom(2, &[c(1)]),
        atom(1, &[c(2)]),
        atom(2, &[c(2)]),
    ];
    let table = RowTable::take_up(&facts);
    for stale in [
        [0, 3, 0, 0, 0, 0],
        [2, 1, 0, 0, 0, 0],
        [1, 0, 0, 0, 0, 0],
        [65535, 65535, 0, 0, 0, 0],
    ] {
        let mut stack = stale;
        let mut found = [c(1); 12];
        assert!(rt; next_match(&rule, &table, &mut stack, &mut found));
        assert_eq!(rt; stack, [0, 1, 0, 0, 0, 0]);
    }
    // a match by other values than those that stand there
    let mut stack = [0, 1, 0, 0, 0, 0];
    let mut found = [c(2); 12];
    assert!(rt; next_match(&rule, &table, &mut stack, &mut found));
    assert_eq!(rt; stack, [0, 1, 0, 0, 0, 0]);
    assert!(rt;
        found
            == [
                c(1),
                c(2),
                c(2),
                c(2),
                c(2),
                c(2),
                c(2),
                c(2),
                c(2),
                c(2),
                c(2),
                c(2)
            ]
    );
    assert!(rt; next_match(&rule, &table, &mut stack, &mut found));
    assert_eq!(rt; stack, [2, 3, 0, 0, 0, 0]);
    Ok(())
}

/// The last row of a full source.
#[test]
fn last_row(rt: HostRuntime) -> Result<(), Fail> {
    let mut rows = many_rows(rt.alloc(), 4095)?;
    rows.push(atom(2, &[c(4094)]))?;
    let table = RowTable::take_up(rows.as_slice());
    let rule = rule(&[atom(1, &[x(0)]), atom(2, &[x(0)])], &[atom(2, &[x(0)])])?;
    let matches = [satisfied(&[4094, 4095], 0, &[c(4094)], &[4095])];
    expect_on(&rt, &table, &rule, &matches)?;
    expect_on(&rt, &Addition::new(Addition::new(table)), &rule, &matches)
}
