//! Each refusal of a fact volume, in each layer and at each index and place that it can have.
use crate::build::{SMALL_FACT, beginning, fact_volume, three_facts};
use crate::expect::{Expected, expect_fault, expect_lines};
use std::test::Fail;
use volumes::Facts;

const CONTENTS: &str = "
    0=0: 2 1 0 0
    0=1: 2 1 0 0
    0=3: 2 1 0 0
    1=8 2=1: 3 1 0 1
    1=255 2=255: 3 1 0 1
    1=8 2=0: 1 1 0 36
    2=17: 1 1 0 36
    2=16: 4 2 0 3
    2=2: 4 2 0 3
    4=8: 4 2 0 3
    4=10: 4 2 0 3
    3=1: 4 2 0 3
    6=17: 4 2 1 5
    6=19: 4 2 1 5
    5=255: 4 2 1 5
    8=23: 4 2 2 7
    8=25: 4 2 2 7
    8=18: 4 2 2 7
    2=0: 5 1 0 3
";

const ATOMS: &str = "
    11=0: 8 4 0 11
    11=5: 8 4 0 11
    11=255: 8 4 0 11
    20=0: 8 4 1 20
    20=5: 8 4 1 20
    26=0: 8 4 2 26
    26=5: 8 4 2 26
    26=4: 7 3 2 36
    26=2: 5 1 0 33
    11=1: 4 2 1 5
    20=2: 4 2 2 7
    12=1: 9 5 0 12
    12=3: 9 5 0 12
    12=255: 9 5 0 12
    15=1: 9 5 0 15
    15=3: 9 5 0 15
    21=1: 9 5 1 21
    21=255: 9 5 1 21
    27=1: 9 5 2 27
    27=3: 9 5 2 27
    30=1: 9 5 2 30
    30=3: 9 5 2 30
    33=1: 9 5 2 33
    33=255: 9 5 2 33
";

/// In the last of 2,048 facts p1(3): the contents end at 4099, and it begins at 16381.
const LAST_FACT: &str = "
    4098=0: 4 2 2047 4097
    16383=0: 8 4 2047 16383
    16383=2: 7 3 2047 16387
    16384=1: 9 5 2047 16384
    16384=3: 9 5 2047 16384
";

#[test]
fn changed_bytes(rt: HostRuntime) -> Result<(), Fail> {
    let bytes = three_facts(rt.alloc())?;
    expect_lines::<Facts>(&rt, rt.alloc(), bytes.as_slice(), CONTENTS)?;
    expect_lines::<Facts>(&rt, rt.alloc(), bytes.as_slice(), ATOMS)
}

#[test]
fn last_of_2048(rt: HostRuntime) -> Result<(), Fail> {
    let bytes = fact_volume(rt.alloc(), 2048, &SMALL_FACT)?;
    expect_lines::<Facts>(&rt, rt.alloc(), bytes.as_slice(), LAST_FACT)?;
    expect_fault::<Facts>(&rt, beginning(bytes.as_slice(), 16386), (7, 3, 2047, 16386))
}

/// Cut in its head or its contents, a volume is short. Cut at a fact's first byte or inside it, that fact is cut.
fn fault_of_cut(n: usize) -> Expected {
    match n {
        0..9 => (1, 1, 0, n),
        9..18 => (7, 3, 0, n),
        18..24 => (7, 3, 1, n),
        _ => (7, 3, 2, n),
    }
}

#[test]
fn cut_volume(rt: HostRuntime) -> Result<(), Fail> {
    let bytes = three_facts(rt.alloc())?;
    for n in 0..36 {
        expect_fault::<Facts>(&rt, beginning(bytes.as_slice(), n), fault_of_cut(n))?;
    }
    Ok(())
}

#[test]
fn bytes_after_the_facts(rt: HostRuntime) -> Result<(), Fail> {
    let mut bytes = three_facts(rt.alloc())?;
    for _ in 0..3 {
        bytes.push(2)?;
        expect_fault::<Facts>(&rt, bytes.as_slice(), (5, 1, 0, 36))?;
    }
    expect_fault::<Facts>(&rt, b"\x02\x00\x00\x00", (5, 1, 0, 3))
}
