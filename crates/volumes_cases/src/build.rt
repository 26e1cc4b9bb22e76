//! Volumes in bytes: joined from parts, changed in places, cut, and repeating a rule or a fact.
use std::alloc::{AllocError, Global};
use std::test::Fail;

/// Two rules: 5: p1(x0,3), p2(x0,x1) -> p3(x1,z2) and 9: p1(x0) -> p2(x0), p3(7,z11). Before each part its place.
const TWO_RULES: [&[u8]; 11] = [
    /* 0 */
    b"\x01\x00\x02",
    /* 3 */
    b"\x00\x05\x00\x1d",
    /* 7 */
    b"\x00\x09\x00\x17",
    /* 11 */
    b"\x02\x01",
    /* 13 */
    b"\x00\x01\x02\x01\x00\x00\x00\x00\x03",
    /* 22 */
    b"\x00\x02\x02\x01\x00\x00\x01\x00\x01",
    /* 31 */
    b"\x00\x03\x02\x01\x00\x01\x01\x00\x02",
    /* 40 */
    b"\x01\x02",
    /* 42 */
    b"\x00\x01\x01\x01\x00\x00",
    /* 48 */
    b"\x00\x02\x01\x01\x00\x00",
    /* 54 */
    b"\x00\x03\x02\x00\x00\x07\x01\x00\x0b",
];

/// Three facts: p1(3,n4), p0(0) and p2(n1,n1,7). Before each part its place.
const THREE_FACTS: [&[u8]; 5] = [
    /* 0 */
    b"\x02\x00\x03",
    /* 3 */
    b"\x00\x09\x00\x12\x00\x18",
    /* 9 */
    b"\x00\x01\x02\x00\x00\x03\x02\x00\x04",
    /* 18 */
    b"\x00\x00\x01\x00\x00\x00",
    /* 24 */
    b"\x00\x02\x03\x02\x00\x01\x02\x00\x01\x00\x00\x07",
];

/// p1(x0) -> p2(x0)
pub const SMALL_RULE: [u8; 14] = *b"\x01\x01\x00\x01\x01\x01\x00\x00\x00\x02\x01\x01\x00\x00";

/// p1(3)
pub const SMALL_FACT: [u8; 6] = *b"\x00\x01\x01\x00\x00\x03";

/// The parts end to end.
pub fn joined(heap: Global, parts: &[&[u8]]) -> Result<Vec<u8>, AllocError> {
    let mut bytes = Vec::new(heap);
    for part in parts {
        bytes.extend_from_slice(part)?;
    }
    Ok(bytes)
}

pub fn two_rules(heap: Global) -> Result<Vec<u8>, AllocError> {
    joined(heap, &TWO_RULES)
}

pub fn three_facts(heap: Global) -> Result<Vec<u8>, AllocError> {
    joined(heap, &THREE_FACTS)
}

/// The bytes with other values at some places, which are written as place=value with spaces between them.
pub fn changed(heap: Global, bytes: &[u8], changes: &str) -> Result<Vec<u8>, Fail> {
    let mut copy = bytes.to_vec(heap)?;
    for change in changes.split_whitespace() {
        let (place, value) = change.split_once("=").ok_or("no equals sign")?;
        set_byte(&mut copy, place.parse::<usize>()?, value.parse::<u8>()?)?;
    }
    Ok(copy)
}

pub fn set_byte(bytes: &mut Vec<u8>, place: usize, value: u8) -> Result<(), Fail> {
    *bytes.get_mut(place).ok_or("a change past the end")? = value;
    Ok(())
}

/// The first `n` of the bytes, or all of them.
pub fn beginning(bytes: &[u8], n: usize) -> &[u8] {
    bytes.get(..n).unwrap_or(bytes)
}

fn push_pair(bytes: &mut Vec<u8>, n: usize) -> Result<(), Fail> {
    let n = u16::try_from(n)?;
    bytes.extend_from_slice(&n.to_be_bytes())?;
    Ok(())
}

fn push_times(bytes: &mut Vec<u8>, count: usize, part: &[u8]) -> Result<(), Fail> {
    for _ in 0..count {
        bytes.extend_from_slice(part)?;
    }
    Ok(())
}

/// A rule volume of so many rules, all the same, numbered from 0 on.
pub fn rule_volume(heap: Global, count: usize, rule: &[u8]) -> Result<Vec<u8>, Fail> {
    let mut bytes = Vec::new(heap);
    bytes.push(1)?;
    push_pair(&mut bytes, count)?;
    for i in 0..count {
        push_pair(&mut bytes, i)?;
        push_pair(&mut bytes, rule.len())?;
    }
    push_times(&mut bytes, count, rule)?;
    Ok(bytes)
}

/// A fact volume of so many facts, all the same.
pub fn fact_volume(heap: Global, count: usize, fact: &[u8]) -> Result<Vec<u8>, Fail> {
    let mut bytes = Vec::new(heap);
    bytes.push(2)?;
    push_pair(&mut bytes, count)?;
    for i in 0..count {
        let place = fact
            .len()
            .wrapping_mul(i)
            .wrapping_add(3)
            .wrapping_add(count.wrapping_mul(2));
        push_pair(&mut bytes, place)?;
    }
    push_times(&mut bytes, count, fact)?;
    Ok(bytes)
}
