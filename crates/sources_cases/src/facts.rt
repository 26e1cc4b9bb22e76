//! The same facts as every kind of source.
use crate::build::{atom, c, fact_volume, many_rows, n, x};
use crate::expect::expect_facts;
use rules::Atom;
use sources::{Addition, FactSource, RowTable};
use std::alloc::Global;
use std::process::Abort;
use std::test::Fail;
use volumes::FactVolume;

/// A pile of three additions over the source has its facts, and so has each addition in it.
fn expect_pile<S: FactSource>(rt: &impl Abort, source: &S, facts: &[Atom]) -> Result<(), Fail> {
    let one = Addition::new(source);
    expect_facts(rt, &one, facts)?;
    let two = Addition::new(one);
    expect_facts(rt, &two, facts)?;
    let three = Addition::new(two);
    expect_facts(rt, &three, facts)
}

/// The facts as a table, as a volume, and as additions over both.
fn expect_sources(rt: &impl Abort, heap: Global, facts: &[Atom]) -> Result<(), Fail> {
    let table = RowTable::take_up(facts);
    expect_facts(rt, &table, facts)?;
    expect_pile(rt, &table, facts)?;
    let bytes = fact_volume(heap, facts)?;
    let volume = FactVolume::take_up(bytes.as_slice());
    expect_facts(rt, &volume, facts)?;
    expect_pile(rt, &volume, facts)
}

#[test]
fn no_facts(rt: HostRuntime) -> Result<(), Fail> {
    expect_sources(&rt, rt.alloc(), &[])
}

#[test]
fn one_fact(rt: HostRuntime) -> Result<(), Fail> {
    expect_sources(&rt, rt.alloc(), &[atom(7, &[c(3), n(4)])])
}

/// Of one to four terms, with the largest numbers, and some of them twice.
#[test]
fn some_facts(rt: HostRuntime) -> Result<(), Fail> {
    let facts = [
        atom(1, &[c(3), n(4)]),
        atom(0, &[c(0)]),
        atom(65535, &[c(65535), n(65535), c(0), n(0)]),
        atom(2, &[n(1), n(1), c(7)]),
        atom(1, &[c(3), n(4)]),
        atom(1, &[c(3)]),
        atom(1, &[c(3)]),
    ];
    expect_sources(&rt, rt.alloc(), &facts)
}

/// As many as a volume may have.
#[test]
fn full_volume(rt: HostRuntime) -> Result<(), Fail> {
    let facts = many_rows(rt.alloc(), 2048)?;
    expect_sources(&rt, rt.alloc(), facts.as_slice())
}

/// As many as a source may have.
#[test]
fn full_table(rt: HostRuntime) -> Result<(), Fail> {
    let rows = many_rows(rt.alloc(), 4096)?;
    let table = RowTable::take_up(rows.as_slice());
    expect_facts(&rt, &table, rows.as_slice())?;
    expect_pile(&rt, &table, rows.as_slice())
}

/// What fails the check of its volume is a source of no facts, and so is what is laid over it.
#[test]
fn damaged_volume(rt: HostRuntime) -> Result<(), Fail> {
    let facts = [atom(1, &[c(3)]), atom(2, &[c(4), x(0)])];
    let bytes = fact_volume(rt.alloc(), &facts)?;
    let volume = FactVolume::take_up(bytes.as_slice());
    expect_facts(&rt, &volume, &[])?;
    expect_pile(&rt, &volume, &[])
}
