//! Which of two faults comes first.
use crate::build::{rule_volume, three_facts, two_rules};
use crate::expect::{Expected, expect_fault, expect_lines};
use crate::rule_faults::TIGHT_RULE;
use std::test::Fail;
use volumes::{Facts, Rules};

/// A head that is cut comes before a wrong first byte, that before the count, and that before contents that are cut.
const RULE_HEADS: [(&[u8], Expected); 5] = [
    (b"", (1, 1, 0, 0)),
    (b"\x02", (1, 1, 0, 1)),
    (b"\x02\xff", (1, 1, 0, 2)),
    (b"\x02\xff\xff", (2, 1, 0, 0)),
    (b"\x01\x00\x41", (3, 1, 0, 1)),
];

const FACT_HEADS: [(&[u8], Expected); 5] = [
    (b"", (1, 1, 0, 0)),
    (b"\x01", (1, 1, 0, 1)),
    (b"\x01\xff", (1, 1, 0, 2)),
    (b"\x01\xff\xff", (2, 1, 0, 0)),
    (b"\x02\x08\x01", (3, 1, 0, 1)),
];

const RULES: &str = "
    # contents that are cut, before numbers that do not rise
    2=16 8=5: 1 1 0 63
    # numbers that do not rise, the first of them, before the end
    2=3 8=5 11=0: 4 2 1 7
    6=28 8=5: 4 2 1 7
    # the end, before the rules
    6=28 11=0: 5 1 0 62
    # a rule of one byte, before its count
    6=1 10=51 11=0: 7 3 0 12
    # the count of body atoms, then that of head atoms, before the atoms
    11=0 12=0: 6 3 0 11
    12=5 15=0: 6 3 0 12
    # in an atom the arity, then each term's kind and number
    15=0 16=2: 8 4 0 15
    16=2 17=1: 9 5 0 16
    18=12 19=2: 9 5 0 17
    # an atom before the next one
    19=2 24=0: 9 5 0 19
    28=2 33=0: 9 5 0 28
    # the atoms before bytes that are left over or missing
    12=2 37=2: 9 5 0 37
    11=1 24=0: 8 4 0 24
    # a rule before the next one
    37=2 40=0: 9 5 0 37
    11=1 40=0: 7 3 0 31
    12=2 45=2: 7 3 0 40
";

/// A field is judged as soon as it is whole: the first rule ends after its first arity, in its first kind, and so on.
const LAST_FIELDS: &str = "
    6=3 10=49 13=255: 7 3 0 14
    6=4 10=48 15=0: 7 3 0 15
    6=5 10=47 15=0: 8 4 0 15
    6=5 10=47 16=2: 7 3 0 16
    6=6 10=46 16=2: 9 5 0 16
    6=7 10=45 17=1: 7 3 0 18
    6=8 10=44 17=1: 9 5 0 17
";

/// In two rules p1(x0) -> p2(x0,z1,z2,z3), p3(z4), the first with a fifth new variable.
const EXISTENTIALS: &str = "
    # a term and bytes that are left over or missing, before that
    18=9 37=2: 9 5 0 37
    18=9 6=30 10=28: 7 3 0 40
    18=9 6=28 10=30: 7 3 0 39
    # that, before the next rule
    18=9 40=0: 10 3 0 11
";

const FACTS: &str = "
    # contents that are cut, before a wrong place
    2=17 4=8: 1 1 0 36
    # a fact's place, before its atom
    4=8 11=0: 4 2 0 3
    6=17 20=0: 4 2 1 5
    # a fact's atom, before the next one's place
    6=17 11=0: 8 4 0 11
    6=17 15=1: 9 5 0 15
    # in an atom the arity, then each term's kind
    11=0 12=1: 8 4 0 11
    12=1 15=1: 9 5 0 12
    # a fact before the next one
    15=1 20=0: 9 5 0 15
    21=1 26=0: 9 5 1 21
    # a wrong term, before the cut after it
    26=4 33=1: 9 5 2 33
";

#[test]
fn heads(rt: HostRuntime) -> Result<(), Fail> {
    for (bytes, expected) in RULE_HEADS {
        expect_fault::<Rules>(&rt, bytes, expected)?;
    }
    for (bytes, expected) in FACT_HEADS {
        expect_fault::<Facts>(&rt, bytes, expected)?;
    }
    Ok(())
}

#[test]
fn in_rule_volumes(rt: HostRuntime) -> Result<(), Fail> {
    let bytes = two_rules(rt.alloc())?;
    expect_lines::<Rules>(&rt, rt.alloc(), bytes.as_slice(), RULES)?;
    expect_lines::<Rules>(&rt, rt.alloc(), bytes.as_slice(), LAST_FIELDS)
}

#[test]
fn existentials_last(rt: HostRuntime) -> Result<(), Fail> {
    let bytes = rule_volume(rt.alloc(), 2, &TIGHT_RULE)?;
    expect_lines::<Rules>(&rt, rt.alloc(), bytes.as_slice(), EXISTENTIALS)
}

#[test]
fn in_fact_volumes(rt: HostRuntime) -> Result<(), Fail> {
    let bytes = three_facts(rt.alloc())?;
    expect_lines::<Facts>(&rt, rt.alloc(), bytes.as_slice(), FACTS)
}

/// A fault of the last fact comes before the byte after it.
const LONGER_FACTS: &str = "
    33=1: 9 5 2 33
    8=0: 4 2 2 7
";

#[test]
fn end_of_facts_last(rt: HostRuntime) -> Result<(), Fail> {
    let mut bytes = three_facts(rt.alloc())?;
    bytes.push(0)?;
    expect_lines::<Facts>(&rt, rt.alloc(), bytes.as_slice(), LONGER_FACTS)
}
