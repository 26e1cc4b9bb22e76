//! Small relations.
use crate::expect::expect_lines;
use std::test::Fail;

/// A number is as high as the longest chain that leads to it, and no higher.
const CHAINS: &str = "
    0<1 1<2 2<3: 0 1 2 3
    3<2 2<1 1<0: 3 2 1 0
    1<3 3<0 0<2: 2 0 3 1
    0<=1 1<=2: 0 0 0
    0<1 1<=2 2<3: 0 1 1 2
    0<=1 1<2 2<=3: 0 0 1 1
    0<1 0<2: 0 1 1
    0<2 1<2: 0 0 1
    0<1 1<2 0<2: 0 1 2
    0<3 0<1 1<2 2<=3: 0 1 2 2
    0<3 0<1 1<=2 2<=3: 0 1 1 1
    0<=1 0<1: 0 1
    0<1 2<=3: 0 1 0 0
";

/// What is at most each other has one number.
const CYCLES: &str = "
    0<=1 1<=0: 0 0
    0<=1 1<=2 2<=0: 0 0 0
    3<1 0<=1 1<=2 2<=0: 1 1 1 0
    3<4 4<2 0<=1 1<=2 2<=0: 2 2 2 0 1
    0<=1 1<=0 1<2 2<=3 3<=2: 0 0 1 1
    0<1 1<=2 2<=1 2<3 4<=3: 0 1 1 2 0
";

/// A cycle with a pair of which one is less than the other has no numbering, wherever else there may be one.
const DECLINED: &str = "
    0<1 1<0: none
    0<1 1<2 2<0: none
    0<1 1<=0: none
    0<=1 1<=2 2<0: none
    0<=1 1<=2 2<=0 0<2: none
    0<1 1<2 3<4 4<=3: none
    5<6 0<0: none
    0<1 1<=2 2<=1 2<3 4<=3 3<=2: none
";

/// A slot is at most itself, and never less.
const ITSELF: &str = "
    0<=0: 0
    1<0 0<=0: 1 0
    0<0: none
    0<1 1<1: none
    63<63: none
";

/// Pairs with a slot that is not held say nothing, and no number follows through one.
const NOT_HELD: &str = "
    0<1 1<2: 0 - 0
    0<1 1<2: - 0 1
    0<1 1<0: 0 -
    1<1: 0 -
    1<1: -
    0<=1 1<2: - - 0
    3<3 0<2 2<1: 0 2 1
";

/// Over 63 there is no slot.
const NO_SLOT: &str = "
    64<64: 0
    0<64 64<1: 0 0
    64<1 0<64 1<100: 0 0
";

#[test]
fn chains(rt: HostRuntime) -> Result<(), Fail> {
    expect_lines(&rt, CHAINS)
}

#[test]
fn cycles(rt: HostRuntime) -> Result<(), Fail> {
    expect_lines(&rt, CYCLES)
}

#[test]
fn declined(rt: HostRuntime) -> Result<(), Fail> {
    expect_lines(&rt, DECLINED)
}

#[test]
fn itself(rt: HostRuntime) -> Result<(), Fail> {
    expect_lines(&rt, ITSELF)
}

#[test]
fn not_held(rt: HostRuntime) -> Result<(), Fail> {
    expect_lines(&rt, NOT_HELD)
}

#[test]
fn no_slot(rt: HostRuntime) -> Result<(), Fail> {
    expect_lines(&rt, NO_SLOT)
}
