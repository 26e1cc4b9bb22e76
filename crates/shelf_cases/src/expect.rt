//! What a case expects of a call.
use faults::ShelfFault;
use reliances::{Kind, Sheet};
use rules::Atom;
use shelf::{PairCounts, Shelf};
use std::process::Abort;
use std::test::Fail;

// What stands in the list before.
const BEFORE: u8 = 77;

/// The shelf's rules have these grades, by rising rule number, and so many ordered pairs of them have each relation. Later
/// entries of the list stay.
pub fn expect_grades(
    rt: &impl Abort,
    shelf: &Shelf,
    expected: &[u8],
    counts: PairCounts,
) -> Result<(), Fail> {
    let mut grades = [BEFORE; 64];
    let Ok(told) = shelf.grade(&mut grades) else {
        return Err(Fail::new("no grading"));
    };
    assert!(rt; told == counts);
    for (i, grade) in grades.iter().enumerate() {
        let due = expected.get(i).copied().unwrap_or(BEFORE);
        assert_eq!(rt; (i, *grade), (i, due));
    }
    Ok(())
}

/// The shelf's rules have no grading, and the list stays.
pub fn expect_no_grades(rt: &impl Abort, shelf: &Shelf) -> Result<(), Fail> {
    let mut grades = [BEFORE; 64];
    expect_refusal(rt, shelf.grade(&mut grades), 22, 0)?;
    assert!(rt; grades == [BEFORE; 64]);
    Ok(())
}

/// The call is declined, with this number and place.
pub fn expect_refusal<T: Drop>(
    rt: &impl Abort,
    answer: Result<T, ShelfFault>,
    number: u8,
    place: usize,
) -> Result<(), Fail> {
    let Err(fault) = answer else {
        return Err(Fail::new("not declined"));
    };
    assert_eq!(rt;
        (fault.number(), fault.rank(), fault.index(), fault.place()),
        (number, 6, 0, place)
    );
    Ok(())
}

/// The rule of this body and head is held under the number.
pub fn expect_rule(
    rt: &impl Abort,
    shelf: &Shelf,
    number: u16,
    body: &[Atom],
    head: &[Atom],
) -> Result<(), Fail> {
    let Ok(rule) = shelf.rule(number) else {
        return Err(Fail::new("not held"));
    };
    assert!(rt; rule.body() == body);
    assert!(rt; rule.head() == head);
    Ok(())
}

/// Both shelves hold the same rules under these numbers, and answer the same of them.
pub fn expect_same(
    rt: &impl Abort,
    before: &Shelf,
    after: &Shelf,
    numbers: &[u16],
) -> Result<(), Fail> {
    for first in numbers {
        match before.rule(*first) {
            Ok(rule) => expect_rule(rt, after, *first, rule.body(), rule.head())?,
            Err(fault) => {
                expect_refusal(rt, after.rule(*first), fault.number(), fault.place())?;
            }
        }
        for second in numbers {
            for kind in [Kind::Positive, Kind::Restraint] {
                let mut sheet = Sheet::BLANK;
                let due = before.ask(kind, *first, *second, &mut sheet);
                assert!(rt; after.ask(kind, *first, *second, &mut sheet) == due);
            }
        }
    }
    Ok(())
}

/// The sheet holds the same as the other.
pub fn expect_same_sheet(rt: &impl Abort, sheet: &Sheet, other: &Sheet) {
    assert!(rt; sheet.first_len == other.first_len && sheet.second_len == other.second_len);
    assert!(rt; sheet.first == other.first && sheet.second == other.second);
    assert!(rt; sheet.first_rule == other.first_rule);
    assert!(rt; sheet.second_rule == other.second_rule);
    assert!(rt; sheet.alternative == other.alternative);
}
