//! What is taken up of a volume, as it is printed.
use crate::build::{SMALL_RULE, changed, joined, rule_volume, three_facts, two_rules};
use std::alloc::{AllocError, Global};
use std::process::Abort;
use std::test::Fail;
use volumes::{Entries, Facts, Item, Placed, RuleAtoms, RuleVolume, Rules, Volume};

/// A rule of six body atoms and four head atoms, each of four terms, with four new variables.
const WIDEST_RULE: [&[u8]; 11] = [
    b"\x06\x04",
    b"\xff\xff\x04\x01\x00\x00\x01\x00\x01\x01\x00\x02\x01\x00\x03",
    b"\x00\x02\x04\x01\x00\x04\x01\x00\x05\x01\x00\x06\x01\x00\x07",
    b"\x00\x03\x04\x01\x00\x00\x00\x00\x00\x00\xff\xff\x01\x00\x00",
    b"\x00\x04\x04\x01\x00\x01\x01\x00\x02\x01\x00\x03\x01\x00\x04",
    b"\x00\x05\x04\x01\x00\x05\x01\x00\x06\x01\x00\x07\x01\x00\x00",
    b"\x01\x00\x04\x00\x01\x00\x00\x00\x02\x00\x00\x03\x00\x00\x04",
    b"\x00\x07\x04\x01\x00\x08\x01\x00\x09\x01\x00\x0a\x01\x00\x0b",
    b"\x00\x08\x04\x01\x00\x00\x01\x00\x08\x01\x00\x01\x01\x00\x09",
    b"\x00\x09\x04\x00\xff\xff\x01\x00\x0a\x00\x00\x00\x01\x00\x0b",
    b"\xff\xff\x04\x01\x00\x0b\x01\x00\x0a\x01\x00\x09\x01\x00\x08",
];

const WIDEST_TEXT: &str =
    "0: p65535(x0,x1,x2,x3), p2(x4,x5,x6,x7), p3(x0,0,65535,x0), p4(x1,x2,x3,x4), p5(x5,x6,x7,x0), p256(256,2,3,4) -> p7(z8,z9,z10,z11), p8(x0,z8,x1,z9), p9(65535,z10,0,z11), p65535(z11,z10,z9,z8)";

/// What is printed of the rule or fact of an index, or `none`.
fn entry_text<E: Entries>(
    heap: Global,
    volume: &Volume<'_, E>,
    index: usize,
) -> Result<String, AllocError> {
    match E::entry(volume, index) {
        Some(entry) => format!(in heap; "{entry}"),
        None => String::from_str(heap, "none"),
    }
}

/// The rules or facts of these indices are printed so.
fn expect_entries<E: Entries>(
    rt: &impl Abort,
    heap: Global,
    bytes: &[u8],
    cases: &[(usize, &str)],
) -> Result<(), Fail> {
    let volume = Volume::<E>::take_up(bytes);
    for (index, text) in cases {
        assert_eq!(rt; entry_text(heap, &volume, *index)?.as_str(), *text);
    }
    Ok(())
}

const RULES: [(usize, &str); 4] = [
    (0, "5: p1(x0,3), p2(x0,x1) -> p3(x1,z2)"),
    (1, "9: p1(x0) -> p2(x0), p3(7,z11)"),
    (2, "none"),
    (18446744073709551615, "none"),
];

/// The smallest and largest numbers of rules, and variables of the head that a change takes out of the body.
const CHANGES: &str = "3=0 4=0 7=255 8=255 30=0 53=5";

const CHANGED_RULES: [(usize, &str); 3] = [
    (0, "0: p1(x0,3), p2(x0,x0) -> p3(z1,z2)"),
    (1, "65535: p1(x0) -> p2(z5), p3(7,z11)"),
    (2, "none"),
];

const FACTS: [(usize, &str); 5] = [
    (0, "p1(3,n4)"),
    (1, "p0(0)"),
    (2, "p2(n1,n1,7)"),
    (3, "none"),
    (18446744073709551615, "none"),
];

#[test]
fn rules_of_volumes(rt: HostRuntime) -> Result<(), Fail> {
    let bytes = two_rules(rt.alloc())?;
    expect_entries::<Rules>(&rt, rt.alloc(), bytes.as_slice(), &RULES)?;
    let copy = changed(rt.alloc(), bytes.as_slice(), CHANGES)?;
    expect_entries::<Rules>(&rt, rt.alloc(), copy.as_slice(), &CHANGED_RULES)
}

#[test]
fn facts_of_volumes(rt: HostRuntime) -> Result<(), Fail> {
    let bytes = three_facts(rt.alloc())?;
    expect_entries::<Facts>(&rt, rt.alloc(), bytes.as_slice(), &FACTS)
}

#[test]
fn widest_rule(rt: HostRuntime) -> Result<(), Fail> {
    let rule = joined(rt.alloc(), &WIDEST_RULE)?;
    let bytes = rule_volume(rt.alloc(), 1, rule.as_slice())?;
    expect_entries::<Rules>(
        &rt,
        rt.alloc(),
        bytes.as_slice(),
        &[(0, WIDEST_TEXT), (1, "none")],
    )
}

/// Each of 64 rules is found by its index.
#[test]
fn every_rule(rt: HostRuntime) -> Result<(), Fail> {
    let bytes = rule_volume(rt.alloc(), 64, &SMALL_RULE)?;
    for i in 0..64 {
        let text = format!(in rt.alloc(); "{i}: p1(x0) -> p2(x0)")?;
        expect_entries::<Rules>(&rt, rt.alloc(), bytes.as_slice(), &[(i, text.as_str())])?;
    }
    Ok(())
}

/// What fails the check in its last atom is taken up as a volume of nothing.
#[test]
fn nothing(rt: HostRuntime) -> Result<(), Fail> {
    let bytes = two_rules(rt.alloc())?;
    let copy = changed(rt.alloc(), bytes.as_slice(), "62=12")?;
    expect_entries::<Rules>(&rt, rt.alloc(), copy.as_slice(), &[(0, "none")])?;
    let bytes = three_facts(rt.alloc())?;
    let copy = changed(rt.alloc(), bytes.as_slice(), "33=1")?;
    expect_entries::<Facts>(&rt, rt.alloc(), copy.as_slice(), &[(0, "none")])
}

/// What is printed of an atom that is handed out: its part of the rule, its text, and which bytes it has.
fn placed_text(heap: Global, part: &str, placed: Placed<'_>) -> Result<String, AllocError> {
    let Placed { atom, bytes, place } = placed;
    let last = bytes.last().copied().unwrap_or(0);
    format!(in heap; "{part} {atom} at {place}, {} bytes to {last}", bytes.len())
}

fn item_text(heap: Global, atoms: &mut RuleAtoms<'_>) -> Result<String, AllocError> {
    match atoms.next_item() {
        Ok(Some(Item::Body(placed))) => placed_text(heap, "body", placed),
        Ok(Some(Item::Head(placed))) => placed_text(heap, "head", placed),
        Ok(None) => String::from_str(heap, "end"),
        Err(_) => String::from_str(heap, "fault"),
    }
}

/// The reader of the atoms of the rule of an index hands out these.
fn expect_atoms(
    rt: &impl Abort,
    heap: Global,
    bytes: &[u8],
    index: usize,
    cases: &[&str],
) -> Result<(), Fail> {
    let mut atoms = RuleVolume::take_up(bytes).atoms(index);
    for text in cases {
        assert_eq!(rt; item_text(heap, &mut atoms)?.as_str(), *text);
    }
    Ok(())
}

const FIRST_ATOMS: [&str; 5] = [
    "body p1(x0,3) at 13, 9 bytes to 3",
    "body p2(x0,x1) at 22, 9 bytes to 1",
    "head p3(x1,x2) at 31, 9 bytes to 2",
    "end",
    "end",
];

const LAST_ATOMS: [&str; 5] = [
    "body p1(x0) at 42, 6 bytes to 0",
    "head p2(x0) at 48, 6 bytes to 0",
    "head p3(7,x11) at 54, 9 bytes to 11",
    "end",
    "end",
];

#[test]
fn atoms_of_rules(rt: HostRuntime) -> Result<(), Fail> {
    let bytes = two_rules(rt.alloc())?;
    expect_atoms(&rt, rt.alloc(), bytes.as_slice(), 0, &FIRST_ATOMS)?;
    expect_atoms(&rt, rt.alloc(), bytes.as_slice(), 1, &LAST_ATOMS)?;
    expect_atoms(&rt, rt.alloc(), bytes.as_slice(), 2, &["end", "end"])
}
