//! Piles of additions, each with what an application added.
use crate::applied::given;
use crate::build::{atom, c, fact_volume, n, rule, x};
use crate::expect::expect_facts;
use crate::finding::expect_find;
use crate::seen::{STALE_ROWS, open, stale_terms};
use rules::{Rule, Term};
use sources::{Addition, Application, FactSource, RowTable, find_after};
use std::process::Abort;
use std::test::Fail;
use volumes::FactVolume;

fn application(rule: &Rule, terms: &[Term]) -> Application {
    Application {
        rule: *rule,
        found: given(terms),
    }
}

/// p1(x0) -> p2(x0,z1), and p2(x0,x1) -> p1(x1).
fn chain() -> Result<(Rule, Rule), Fail> {
    Ok((
        rule(&[atom(1, &[x(0)])], &[atom(2, &[x(0), x(1)])])?,
        rule(&[atom(2, &[x(0), x(1)])], &[atom(1, &[x(1)])])?,
    ))
}

/// Three layers over the source p1(5), each with what is applied on those below.
fn expect_layers<S: FactSource>(rt: &impl Abort, below: &S) -> Result<(), Fail> {
    let (pairs, singles) = chain()?;
    let facts = [
        atom(1, &[c(5)]),
        atom(2, &[c(5), n(0)]),
        atom(1, &[n(0)]),
        atom(2, &[n(0), n(1)]),
    ];
    expect_find(rt, below, &pairs, Some(open(&[0], 0, &[c(5)])))?;
    let mut one = Addition::new(below);
    assert!(rt; one.apply(&pairs, &given(&[c(5)])).is_ok());
    expect_facts(rt, &one, &facts[..2])?;
    // the only match is satisfied by the row of this layer
    expect_find(rt, &one, &pairs, None)?;
    expect_find(rt, &one, &singles, Some(open(&[1], 0, &[c(5), n(0)])))?;
    let mut two = Addition::new(&one);
    assert!(rt; two.apply(&singles, &given(&[c(5), n(0)])).is_ok());
    expect_facts(rt, &two, &facts[..3])?;
    expect_find(rt, &two, &singles, None)?;
    expect_find(rt, &two, &pairs, Some(open(&[2], 0, &[n(0)])))?;
    let mut three = Addition::new(&two);
    assert!(rt; three.apply(&pairs, &given(&[n(0)])).is_ok());
    expect_facts(rt, &three, &facts)?;
    expect_find(rt, &three, &pairs, None)?;
    expect_find(rt, &three, &singles, Some(open(&[3], 0, &[n(0), n(1)])))?;
    // what lies below is as it was
    expect_facts(rt, &two, &facts[..3])?;
    expect_facts(rt, below, &facts[..1])
}

#[test]
fn layers(rt: HostRuntime) -> Result<(), Fail> {
    let facts = [atom(1, &[c(5)])];
    expect_layers(&rt, &RowTable::take_up(&facts))?;
    let bytes = fact_volume(rt.alloc(), &facts)?;
    expect_layers(&rt, &FactVolume::take_up(bytes.as_slice()))
}

/// What any calls leave, and what is found then: of those that are not declined the last one counts.
#[test]
fn calls(rt: HostRuntime) -> Result<(), Fail> {
    let (pairs, singles) = chain()?;
    let facts = [
        atom(1, &[c(5)]),
        atom(1, &[c(6)]),
        atom(2, &[c(6), n(0)]),
        atom(2, &[c(5), n(1)]),
    ];
    let below = &RowTable::take_up(&facts[..3]);
    let calls = [
        application(&singles, &[c(6), n(0)]),
        application(&pairs, &[c(7)]),
        application(&pairs, &[c(5)]),
        application(&pairs, &[c(6)]),
        application(&singles, &[c(5), n(1)]),
    ];
    let mut stack = STALE_ROWS;
    let mut found = stale_terms();
    // all declined, or none made: nothing is added
    let (one, yes) = find_after(below, &calls[3..], &pairs, &mut stack, &mut found);
    expect_facts(&rt, &one, &facts[..3])?;
    assert!(&rt; yes && stack == open(&[0], 0, &[]).rows && found == given(&[c(5)]));
    let (two, yes) = find_after(&one, &[], &singles, &mut stack, &mut found);
    expect_facts(&rt, &two, &facts[..3])?;
    assert!(&rt; yes && stack == open(&[2], 0, &[]).rows && found == given(&[c(6), n(0)]));
    let before = (stack, found);
    let (three, yes) = find_after(two, &calls, &pairs, &mut stack, &mut found);
    expect_facts(&rt, &three, &facts)?;
    assert!(&rt; !yes && stack == before.0 && found == before.1);
    expect_find(&rt, &three, &singles, Some(open(&[2], 0, &[c(6), n(0)])))
}
