//! The largest and the smallest that is accepted, and the next after it, which is declined.
use crate::build::{SMALL_FACT, SMALL_RULE, fact_volume, rule_volume, three_facts, two_rules};
use crate::expect::{expect_count, expect_fault, expect_lines};
use crate::rule_faults::TIGHT_RULE;
use std::test::Fail;
use volumes::{Facts, Rules};

/// Changes to two rules that leave them accepted: the smallest and largest numbers of rules, predicates, constants
/// and variables, and numbers that rise by one.
const RULES: &str = "
    : accepted 2
    3=0 4=0 7=255 8=255: accepted 2
    8=6: accepted 2
    3=255 4=254 7=255 8=255: accepted 2
    13=255 14=255 54=255 55=255: accepted 2
    20=255 21=255 58=255 59=255: accepted 2
    18=11 27=11 36=11 39=11: accepted 2
    16=0 17=255 18=255: accepted 2
    57=1 59=11 62=0: accepted 2
";

/// Changes to three facts that leave them accepted.
const FACTS: &str = "
    : accepted 3
    9=255 10=255: accepted 3
    13=255 14=255 16=255 17=255: accepted 3
    12=2 15=0 21=2 33=2: accepted 3
";

#[test]
fn rules(rt: HostRuntime) -> Result<(), Fail> {
    let bytes = two_rules(rt.alloc())?;
    expect_lines::<Rules>(&rt, rt.alloc(), bytes.as_slice(), RULES)
}

#[test]
fn facts(rt: HostRuntime) -> Result<(), Fail> {
    let bytes = three_facts(rt.alloc())?;
    expect_lines::<Facts>(&rt, rt.alloc(), bytes.as_slice(), FACTS)
}

#[test]
fn none(rt: HostRuntime) -> Result<(), Fail> {
    expect_count::<Rules>(&rt, b"\x01\x00\x00", 0)?;
    expect_count::<Facts>(&rt, b"\x02\x00\x00", 0)
}

#[test]
fn most_rules(rt: HostRuntime) -> Result<(), Fail> {
    for n in 1..65 {
        let bytes = rule_volume(rt.alloc(), n, &SMALL_RULE)?;
        expect_count::<Rules>(&rt, bytes.as_slice(), n)?;
    }
    let bytes = rule_volume(rt.alloc(), 65, &SMALL_RULE)?;
    expect_fault::<Rules>(&rt, bytes.as_slice(), (3, 1, 0, 1))
}

#[test]
fn most_facts(rt: HostRuntime) -> Result<(), Fail> {
    for n in [1, 2, 255, 256, 257, 2047, 2048] {
        let bytes = fact_volume(rt.alloc(), n, &SMALL_FACT)?;
        expect_count::<Facts>(&rt, bytes.as_slice(), n)?;
    }
    let bytes = fact_volume(rt.alloc(), 2049, &SMALL_FACT)?;
    expect_fault::<Facts>(&rt, bytes.as_slice(), (3, 1, 0, 1))
}

/// Facts of four terms.
#[test]
fn longest_facts(rt: HostRuntime) -> Result<(), Fail> {
    let bytes = fact_volume(
        rt.alloc(),
        2048,
        b"\x00\x01\x04\x00\x00\x00\x02\x00\x00\x00\xff\xff\x02\xff\xff",
    )?;
    expect_count::<Facts>(&rt, bytes.as_slice(), 2048)
}

/// Changes to the rule p1(x0) -> p2(x0,z1,z2,z3), p3(z4) that leave it four new variables or fewer.
const FEW_EXISTENTIALS: &str = "
    : accepted 1
    35=11: accepted 1
    35=1: accepted 1
    14=11 20=11: accepted 1
    20=5 35=0: accepted 1
";

/// Changes to it that give it a fifth.
const MANY_EXISTENTIALS: &str = "
    14=11: 10 3 0 7
    20=5: 10 3 0 7
";

#[test]
fn most_existentials(rt: HostRuntime) -> Result<(), Fail> {
    let bytes = rule_volume(rt.alloc(), 1, &TIGHT_RULE)?;
    expect_lines::<Rules>(&rt, rt.alloc(), bytes.as_slice(), FEW_EXISTENTIALS)?;
    expect_lines::<Rules>(&rt, rt.alloc(), bytes.as_slice(), MANY_EXISTENTIALS)
}
