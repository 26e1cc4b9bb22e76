//! Each refusal of a rule volume, in each layer and at each index and place that it can have.
use crate::build::{SMALL_RULE, beginning, rule_volume, set_byte, two_rules};
use crate::expect::{Expected, expect_fault, expect_lines};
use std::test::Fail;
use volumes::Rules;

const CONTENTS: &str = "
    0=0: 2 1 0 0
    0=2: 2 1 0 0
    0=255: 2 1 0 0
    2=65: 3 1 0 1
    1=1: 3 1 0 1
    1=255 2=255: 3 1 0 1
    2=64: 1 1 0 63
    2=16: 1 1 0 63
    8=5: 4 2 1 7
    8=4: 4 2 1 7
    4=9: 4 2 1 7
    3=1: 4 2 1 7
    2=3 11=0: 4 2 2 11
    2=0: 5 1 0 3
    2=1: 5 1 0 36
    6=28: 5 1 0 62
    6=30: 5 1 0 64
    10=22: 5 1 0 62
    10=24: 5 1 0 64
    9=1: 5 1 0 319
    9=255 10=216: 5 1 0 65536
    5=255 6=255 9=255 10=255: 5 1 0 131081
";

const COUNTS: &str = "
    11=0: 6 3 0 11
    11=7: 6 3 0 11
    11=255: 6 3 0 11
    12=0: 6 3 0 12
    12=5: 6 3 0 12
    12=255: 6 3 0 12
    40=0: 6 3 1 40
    40=7: 6 3 1 40
    41=0: 6 3 1 41
    41=5: 6 3 1 41
    11=1: 7 3 0 31
    11=3: 7 3 0 40
    11=6: 7 3 0 40
    12=2: 7 3 0 40
    12=4: 7 3 0 40
    40=2: 7 3 1 63
    41=1: 7 3 1 54
    41=3: 7 3 1 63
";

const ARITIES: &str = "
    15=0: 8 4 0 15
    15=5: 8 4 0 15
    15=255: 8 4 0 15
    24=0: 8 4 0 24
    24=5: 8 4 0 24
    24=255: 8 4 0 24
    33=0: 8 4 0 33
    33=5: 8 4 0 33
    33=255: 8 4 0 33
    44=0: 8 4 1 44
    44=5: 8 4 1 44
    50=0: 8 4 1 50
    50=255: 8 4 1 50
    56=0: 8 4 1 56
    56=5: 8 4 1 56
    56=1: 7 3 1 60
    56=3: 7 3 1 63
    33=1: 7 3 0 37
";

const KINDS: &str = "
    16=2: 9 5 0 16
    16=3: 9 5 0 16
    16=255: 9 5 0 16
    19=2: 9 5 0 19
    25=2: 9 5 0 25
    28=255: 9 5 0 28
    34=2: 9 5 0 34
    37=2: 9 5 0 37
    37=3: 9 5 0 37
    45=2: 9 5 1 45
    45=3: 9 5 1 45
    51=2: 9 5 1 51
    57=2: 9 5 1 57
    57=255: 9 5 1 57
    60=2: 9 5 1 60
    60=3: 9 5 1 60
";

const VARIABLES: &str = "
    18=12: 9 5 0 17
    17=1: 9 5 0 17
    17=255 18=255: 9 5 0 17
    19=1 21=12: 9 5 0 20
    27=12: 9 5 0 26
    30=12: 9 5 0 29
    36=12: 9 5 0 35
    39=12: 9 5 0 38
    47=12: 9 5 1 46
    53=255: 9 5 1 52
    57=1 59=12: 9 5 1 58
    62=12: 9 5 1 61
    61=1: 9 5 1 61
";

/// In the last of 64 rules p1(x0) -> p2(x0): the contents end at 259, and it begins at 1141.
const LAST_RULE: &str = "
    256=62: 4 2 63 255
    258=15: 5 1 0 1156
    1141=0: 6 3 63 1141
    1142=5: 6 3 63 1142
    1141=2: 7 3 63 1155
    1145=0: 8 4 63 1145
    1151=5: 8 4 63 1151
    1146=2: 9 5 63 1146
    1154=12: 9 5 63 1153
    1153=1: 9 5 63 1153
";

/// In two rules p1(x0) -> p2(x0,z1,z2,z3), p3(z4): with another variable in the body, x0 is a fifth new one.
const EXISTENTIALS: &str = "
    18=9: 10 3 0 11
    47=9: 10 3 1 40
    18=9 47=9: 10 3 0 11
";

/// p1(x0) -> p2(x0,z1,z2,z3), p3(z4)
pub const TIGHT_RULE: [u8; 29] =
    *b"\x01\x02\x00\x01\x01\x01\x00\x00\x00\x02\x04\x01\x00\x00\x01\x00\x01\x01\x00\x02\x01\x00\x03\x00\x03\x01\x01\x00\x04";

#[test]
fn changed_bytes(rt: HostRuntime) -> Result<(), Fail> {
    let bytes = two_rules(rt.alloc())?;
    expect_lines::<Rules>(&rt, rt.alloc(), bytes.as_slice(), CONTENTS)?;
    expect_lines::<Rules>(&rt, rt.alloc(), bytes.as_slice(), COUNTS)?;
    expect_lines::<Rules>(&rt, rt.alloc(), bytes.as_slice(), ARITIES)?;
    expect_lines::<Rules>(&rt, rt.alloc(), bytes.as_slice(), KINDS)?;
    expect_lines::<Rules>(&rt, rt.alloc(), bytes.as_slice(), VARIABLES)
}

#[test]
fn last_of_64(rt: HostRuntime) -> Result<(), Fail> {
    let bytes = rule_volume(rt.alloc(), 64, &SMALL_RULE)?;
    expect_lines::<Rules>(&rt, rt.alloc(), bytes.as_slice(), LAST_RULE)
}

#[test]
fn existentials(rt: HostRuntime) -> Result<(), Fail> {
    let bytes = rule_volume(rt.alloc(), 2, &TIGHT_RULE)?;
    expect_lines::<Rules>(&rt, rt.alloc(), bytes.as_slice(), EXISTENTIALS)
}

/// Cut in its head or its contents, a volume is short. Cut after them, it does not end where they say.
fn fault_of_cut(n: usize) -> Expected {
    if n < 11 { (1, 1, 0, n) } else { (5, 1, 0, 63) }
}

#[test]
fn cut_volume(rt: HostRuntime) -> Result<(), Fail> {
    let bytes = two_rules(rt.alloc())?;
    for n in 0..63 {
        expect_fault::<Rules>(&rt, beginning(bytes.as_slice(), n), fault_of_cut(n))?;
    }
    Ok(())
}

#[test]
fn bytes_after_the_rules(rt: HostRuntime) -> Result<(), Fail> {
    let mut bytes = two_rules(rt.alloc())?;
    for _ in 0..3 {
        bytes.push(1)?;
        expect_fault::<Rules>(&rt, bytes.as_slice(), (5, 1, 0, 63))?;
    }
    expect_fault::<Rules>(&rt, b"\x01\x00\x00\x00", (5, 1, 0, 3))
}

/// Each of 64 rules has the largest length, and nothing stands after the contents.
#[test]
fn largest_end(rt: HostRuntime) -> Result<(), Fail> {
    let mut bytes = b"\x01\x00\x40".to_vec(rt.alloc())?;
    for i in 0..64 {
        bytes.extend_from_slice(&[0, i, 255, 255])?;
    }
    expect_fault::<Rules>(&rt, bytes.as_slice(), (5, 1, 0, 4194499))
}

/// The first rule's stated length is too small, by one up to all of its bytes, and the second's larger by as many.
#[test]
fn first_rule_cut(rt: HostRuntime) -> Result<(), Fail> {
    let bytes = two_rules(rt.alloc())?;
    for n in 0..29 {
        let mut copy = bytes.clone()?;
        set_byte(&mut copy, 6, n)?;
        set_byte(&mut copy, 10, 52 - n)?;
        expect_fault::<Rules>(&rt, copy.as_slice(), (7, 3, 0, 11 + n as usize))?;
    }
    Ok(())
}

/// The first rule's stated length is too large, and the second's smaller by as many.
#[test]
fn first_rule_left_over(rt: HostRuntime) -> Result<(), Fail> {
    let bytes = two_rules(rt.alloc())?;
    for n in 30..53 {
        let mut copy = bytes.clone()?;
        set_byte(&mut copy, 6, n)?;
        set_byte(&mut copy, 10, 52 - n)?;
        expect_fault::<Rules>(&rt, copy.as_slice(), (7, 3, 0, 40))?;
    }
    Ok(())
}

#[test]
fn last_rule_cut(rt: HostRuntime) -> Result<(), Fail> {
    let bytes = two_rules(rt.alloc())?;
    for n in 0..23 {
        let mut copy = bytes.clone()?;
        set_byte(&mut copy, 10, n)?;
        let end = 40 + n as usize;
        expect_fault::<Rules>(&rt, beginning(copy.as_slice(), end), (7, 3, 1, end))?;
    }
    Ok(())
}

#[test]
fn last_rule_left_over(rt: HostRuntime) -> Result<(), Fail> {
    let mut bytes = two_rules(rt.alloc())?;
    set_byte(&mut bytes, 10, 24)?;
    bytes.push(1)?;
    expect_fault::<Rules>(&rt, bytes.as_slice(), (7, 3, 1, 63))
}
