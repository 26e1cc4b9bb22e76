//! What a shelf answers about two of its rules.
use crate::archive::{admit_frame, admit_master, admit_raw, admit_taken, admit_transitive};
use crate::build::{atom, c};
use crate::expect::{expect_refusal, expect_same, expect_same_sheet};
use reliances::{Kind, Sheet};
use rules::Term;
use shelf::Shelf;
use std::alloc::Global;
use std::process::Abort;
use std::test::Fail;

const KINDS: [Kind; 2] = [Kind::Positive, Kind::Restraint];

/// A sheet with something on it.
fn stale_sheet() -> Sheet {
    let mut sheet = Sheet::BLANK;
    sheet.first = [atom(4, &[c(4), Term::Null(4)]); 11];
    sheet.first_len = 3;
    sheet.second_len = 1;
    sheet.alternative = [Term::Null(5); 12];
    sheet
}

fn archive(heap: Global) -> Result<Shelf, Fail> {
    let mut shelf = Shelf::new();
    admit_frame(heap, &mut shelf, 8)?;
    admit_master(heap, &mut shelf, 3)?;
    admit_transitive(heap, &mut shelf, 5)?;
    admit_taken(heap, &mut shelf, 20)?;
    admit_raw(heap, &mut shelf, 10)?;
    Ok(shelf)
}

/// Both calls about the two numbers are declined for want of this one, and what is lent stays.
fn expect_not_held(
    rt: &impl Abort,
    shelf: &Shelf,
    first: u16,
    second: u16,
    named: u16,
) -> Result<(), Fail> {
    for kind in KINDS {
        let mut sheet = stale_sheet();
        let asked = shelf.ask(kind, first, second, &mut sheet);
        expect_refusal(rt, asked, 13, named as usize)?;
        expect_same_sheet(rt, &sheet, &stale_sheet());
        let verified = shelf.verify(kind, first, second, &sheet);
        expect_refusal(rt, verified, 13, named as usize)?;
    }
    Ok(())
}

#[test]
fn not_held(rt: HostRuntime) -> Result<(), Fail> {
    let mut shelf = archive(rt.alloc())?;
    expect_not_held(&rt, &Shelf::new(), 0, 0, 0)?;
    expect_not_held(&rt, &shelf, 4, 8, 4)?;
    expect_not_held(&rt, &shelf, 8, 4, 4)?;
    expect_not_held(&rt, &shelf, 4, 6, 4)?;
    expect_not_held(&rt, &shelf, 6, 4, 6)?;
    expect_not_held(&rt, &shelf, 65535, 65535, 65535)?;
    assert!(&rt; shelf.withdraw(8).is_ok());
    expect_not_held(&rt, &shelf, 3, 8, 8)
}

/// The relation holds, and the sheet shows it, for this kind and these numbers alone.
fn expect_yes(
    rt: &impl Abort,
    shelf: &Shelf,
    kind: Kind,
    first: u16,
    second: u16,
) -> Result<Sheet, Fail> {
    let mut sheet = stale_sheet();
    assert!(rt; shelf.ask(kind, first, second, &mut sheet) == Ok(true));
    for other in KINDS {
        assert!(rt; shelf.verify(other, first, second, &sheet) == Ok(other == kind));
        if first != second {
            assert!(rt; shelf.verify(other, second, first, &sheet) == Ok(false));
        }
    }
    Ok(sheet)
}

/// The relation does not hold, and the sheet stays.
fn expect_no(rt: &impl Abort, shelf: &Shelf, kind: Kind, first: u16, second: u16) {
    let mut sheet = stale_sheet();
    assert!(rt; shelf.ask(kind, first, second, &mut sheet) == Ok(false));
    expect_same_sheet(rt, &sheet, &stale_sheet());
}

#[test]
fn answered(rt: HostRuntime) -> Result<(), Fail> {
    let shelf = archive(rt.alloc())?;
    let before = shelf;
    expect_yes(&rt, &shelf, Kind::Restraint, 3, 8)?;
    expect_yes(&rt, &shelf, Kind::Positive, 10, 20)?;
    expect_no(&rt, &shelf, Kind::Positive, 3, 8);
    expect_no(&rt, &shelf, Kind::Restraint, 8, 3);
    expect_no(&rt, &shelf, Kind::Positive, 20, 10);
    expect_no(&rt, &shelf, Kind::Restraint, 10, 20);
    expect_same(&rt, &before, &shelf, &[3, 8, 10, 20, 7])
}

#[test]
fn of_itself(rt: HostRuntime) -> Result<(), Fail> {
    let shelf = archive(rt.alloc())?;
    expect_yes(&rt, &shelf, Kind::Positive, 5, 5)?;
    expect_no(&rt, &shelf, Kind::Restraint, 5, 5);
    expect_no(&rt, &shelf, Kind::Positive, 3, 3);
    expect_no(&rt, &shelf, Kind::Restraint, 8, 8);
    Ok(())
}

/// Lists as long as they may be, and longer ones.
#[test]
fn long_lists(rt: HostRuntime) -> Result<(), Fail> {
    let shelf = archive(rt.alloc())?;
    let sheet = expect_yes(&rt, &shelf, Kind::Restraint, 3, 8)?;
    for length in [12, 255] {
        let mut long = sheet;
        long.first_len = length;
        assert!(&rt; shelf.verify(Kind::Restraint, 3, 8, &long) == Ok(false));
        let mut long = sheet;
        long.second_len = length - 2;
        assert!(&rt; shelf.verify(Kind::Restraint, 3, 8, &long) == Ok(false));
    }
    let mut sheet = expect_yes(&rt, &shelf, Kind::Positive, 10, 20)?;
    sheet.second_len = 1;
    assert!(&rt; shelf.verify(Kind::Positive, 10, 20, &sheet) == Ok(false));
    Ok(())
}

/// What is asked leaves the shelf, whatever the answer, and so does a grading.
#[test]
fn shelf_stays(rt: HostRuntime) -> Result<(), Fail> {
    let shelf = archive(rt.alloc())?;
    let before = shelf;
    expect_not_held(&rt, &shelf, 4, 8, 4)?;
    expect_yes(&rt, &shelf, Kind::Restraint, 3, 8)?;
    assert!(&rt; shelf.grade(&mut [0; 64]).is_ok());
    expect_same(&rt, &before, &shelf, &[3, 5, 8, 10, 20, 4])
}
