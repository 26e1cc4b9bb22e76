//! Which rules are held: what is admitted, declined and withdrawn.
use crate::archive::{admit_frame, admit_master, flat, frame, master, two_rules};
use crate::build::rule_volume;
use crate::expect::{expect_refusal, expect_rule, expect_same};
use shelf::Shelf;
use std::alloc::Global;
use std::test::Fail;
use volumes::RuleVolume;

/// A shelf of 64 rules, numbered from 100.
fn full(heap: Global) -> Result<Shelf, Fail> {
    let mut shelf = Shelf::new();
    for i in 0..64 {
        admit_frame(heap, &mut shelf, 100 + i)?;
    }
    Ok(shelf)
}

/// The last rule, the first, and no further one.
#[test]
fn indexes(rt: HostRuntime) -> Result<(), Fail> {
    let bytes = two_rules(rt.alloc())?;
    let volume = RuleVolume::take_up(&bytes);
    let mut shelf = Shelf::new();
    expect_refusal(&rt, shelf.admit(&volume, 2), 14, 2)?;
    assert!(&rt; shelf.admit(&volume, 1).is_ok());
    expect_refusal(&rt, shelf.rule(3), 13, 3)?;
    assert!(&rt; shelf.admit(&volume, 0).is_ok());
    expect_refusal(&rt, shelf.admit(&volume, 2), 14, 2)?;
    expect_refusal(&rt, shelf.admit(&volume, usize::MAX), 14, usize::MAX)?;
    expect_rule(&rt, &shelf, 3, &[master()], &[flat()])?;
    expect_rule(&rt, &shelf, 8, &[frame()], &[flat()])
}

/// A volume with a byte too few has no rules.
#[test]
fn damaged(rt: HostRuntime) -> Result<(), Fail> {
    let mut bytes = two_rules(rt.alloc())?;
    bytes.pop();
    let volume = RuleVolume::take_up(&bytes);
    let mut shelf = Shelf::new();
    for index in 0..70 {
        expect_refusal(&rt, shelf.admit(&volume, index), 14, index)?;
    }
    expect_same(&rt, &Shelf::new(), &shelf, &[3, 8])
}

/// Another rule of the same number, from another volume: the one that is held stays. Of an index past the end there is no
/// number.
#[test]
fn already_held(rt: HostRuntime) -> Result<(), Fail> {
    let mut shelf = Shelf::new();
    admit_master(rt.alloc(), &mut shelf, 3)?;
    admit_frame(rt.alloc(), &mut shelf, 8)?;
    let before = shelf;
    let bytes = rule_volume(rt.alloc(), 3, &[frame()], &[flat()])?;
    let volume = RuleVolume::take_up(&bytes);
    expect_refusal(&rt, shelf.admit(&volume, 0), 12, 3)?;
    expect_refusal(&rt, shelf.admit(&volume, 1), 14, 1)?;
    expect_rule(&rt, &shelf, 3, &[master()], &[flat()])?;
    expect_same(&rt, &before, &shelf, &[3, 8, 1])
}

/// A 65th rule is declined, and of a number that is held that is said first. Where one is withdrawn there is room for one.
#[test]
fn no_room(rt: HostRuntime) -> Result<(), Fail> {
    let mut shelf = full(rt.alloc())?;
    let bytes = two_rules(rt.alloc())?;
    let volume = RuleVolume::take_up(&bytes);
    let held = rule_volume(rt.alloc(), 130, &[master()], &[flat()])?;
    let held = RuleVolume::take_up(&held);
    for at in [163, 100, 131] {
        let before = shelf;
        expect_refusal(&rt, shelf.admit(&volume, 0), 11, 3)?;
        expect_refusal(&rt, shelf.admit(&held, 0), 12, 130)?;
        expect_refusal(&rt, shelf.admit(&volume, 2), 14, 2)?;
        expect_same(&rt, &before, &shelf, &[100, 130, 163, 3])?;
        assert!(&rt; shelf.withdraw(at).is_ok());
        expect_refusal(&rt, shelf.rule(at), 13, at as usize)?;
        assert!(&rt; shelf.admit(&volume, 0).is_ok());
        expect_refusal(&rt, shelf.admit(&volume, 0), 12, 3)?;
        expect_refusal(&rt, shelf.admit(&volume, 1), 11, 8)?;
        expect_rule(&rt, &shelf, 3, &[master()], &[flat()])?;
        assert!(&rt; shelf.withdraw(3).is_ok());
        admit_frame(rt.alloc(), &mut shelf, at)?;
    }
    Ok(())
}

#[test]
fn each_of_64(rt: HostRuntime) -> Result<(), Fail> {
    let mut shelf = full(rt.alloc())?;
    for number in 100..164 {
        expect_rule(&rt, &shelf, number, &[frame()], &[flat()])?;
    }
    expect_refusal(&rt, shelf.rule(99), 13, 99)?;
    expect_refusal(&rt, shelf.rule(164), 13, 164)?;
    for number in 100..164 {
        assert!(&rt; shelf.withdraw(number).is_ok());
        expect_refusal(&rt, shelf.rule(number), 13, number as usize)?;
    }
    expect_same(&rt, &Shelf::new(), &shelf, &[100, 163])
}

#[test]
fn withdrawn(rt: HostRuntime) -> Result<(), Fail> {
    let mut shelf = Shelf::new();
    expect_refusal(&rt, shelf.withdraw(5), 13, 5)?;
    expect_refusal(&rt, shelf.withdraw(0), 13, 0)?;
    admit_master(rt.alloc(), &mut shelf, 65535)?;
    let before = shelf;
    expect_refusal(&rt, shelf.withdraw(0), 13, 0)?;
    expect_same(&rt, &before, &shelf, &[0, 65535])?;
    assert!(&rt; shelf.withdraw(65535).is_ok());
    expect_refusal(&rt, shelf.withdraw(65535), 13, 65535)?;
    expect_same(&rt, &Shelf::new(), &shelf, &[0, 65535])
}
