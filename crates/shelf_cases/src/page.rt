//! The examples of docs/shelf.md.
use crate::archive::{flat, frame, master};
use crate::build::{Written, atom, c, volume, x};
use crate::expect::{expect_grades, expect_refusal};
use reliances::{Kind, Sheet};
use rules::{Atom, Term};
use shelf::{Answer, Call, PairCounts, Shelf, run};
use std::alloc::Global;
use std::test::Fail;
use volumes::RuleVolume;

/// Which camera took a raw frame, and which flat it uses.
fn raw(frame: Term, camera: Term) -> Atom {
    atom(10, &[frame, camera])
}

fn uses() -> Atom {
    atom(11, &[x(2), x(1)])
}

/// The rules 3, 8 and 12 of the page.
fn three_rules(heap: Global) -> Result<Vec<u8>, Fail> {
    let named = Written {
        number: 3,
        body: &[master()],
        head: &[flat()],
    };
    let placeholder = Written {
        number: 8,
        body: &[frame()],
        head: &[flat()],
    };
    let used = Written {
        number: 12,
        body: &[flat(), raw(x(0), x(2))],
        head: &[uses()],
    };
    volume(heap, &[named, placeholder, used])
}

fn three_held(volume: &RuleVolume) -> Result<Shelf, Fail> {
    let mut shelf = Shelf::new();
    for index in 0..volume.count() {
        if shelf.admit(volume, index).is_err() {
            return Err(Fail::new("not admitted"));
        }
    }
    Ok(shelf)
}

/// The sheet that shows that 12 relies on 8.
fn relying() -> Sheet {
    let mut sheet = Sheet::BLANK;
    sheet.first[0] = atom(1, &[c(1)]);
    sheet.first[1] = raw(c(1), c(2));
    sheet.first_len = 2;
    sheet.first_rule[0] = c(1);
    sheet.first_rule[1] = Term::Null(0);
    sheet.second_rule[0] = c(1);
    sheet.second_rule[1] = Term::Null(0);
    sheet.second_rule[2] = c(2);
    sheet
}

/// The sheet that shows that 3 restrains 8.
fn restraining() -> Sheet {
    let mut sheet = Sheet::BLANK;
    sheet.first[0] = atom(1, &[c(1)]);
    sheet.first_len = 1;
    sheet.second[0] = atom(2, &[c(1), c(9)]);
    sheet.second_len = 1;
    sheet.first_rule[0] = c(1);
    sheet.first_rule[1] = c(9);
    sheet.second_rule[0] = c(1);
    sheet.second_rule[1] = Term::Null(0);
    sheet.alternative[0] = c(1);
    sheet.alternative[1] = c(9);
    sheet
}

/// The sheets by hand, and with one entry changed.
#[test]
fn sheets(rt: HostRuntime) -> Result<(), Fail> {
    let bytes = three_rules(rt.alloc())?;
    let shelf = three_held(&RuleVolume::take_up(&bytes))?;
    let mut sheet = relying();
    assert!(&rt; shelf.verify(Kind::Positive, 8, 12, &sheet) == Ok(true));
    assert!(&rt; shelf.verify(Kind::Positive, 3, 12, &sheet) == Ok(false));
    sheet.first_rule[1] = c(5);
    assert!(&rt; shelf.verify(Kind::Positive, 8, 12, &sheet) == Ok(false));
    let mut sheet = restraining();
    assert!(&rt; shelf.verify(Kind::Restraint, 3, 8, &sheet) == Ok(true));
    assert!(&rt; shelf.verify(Kind::Restraint, 8, 3, &sheet) == Ok(false));
    sheet.alternative[1] = Term::Null(0);
    assert!(&rt; shelf.verify(Kind::Restraint, 3, 8, &sheet) == Ok(false));
    Ok(())
}

#[test]
fn calls(rt: HostRuntime) -> Result<(), Fail> {
    let bytes = three_rules(rt.alloc())?;
    let volume = RuleVolume::take_up(&bytes);
    let mut shelf = three_held(&volume)?;
    let mut sheet = Sheet::BLANK;
    assert!(&rt; shelf.ask(Kind::Restraint, 3, 8, &mut sheet) == Ok(true));
    assert!(&rt; shelf.verify(Kind::Restraint, 3, 8, &sheet) == Ok(true));
    assert!(&rt; shelf.verify(Kind::Restraint, 8, 3, &sheet) == Ok(false));
    assert!(&rt; shelf.ask(Kind::Positive, 3, 8, &mut sheet) == Ok(false));
    let counts = PairCounts {
        reliances: 2,
        restraints: 1,
    };
    expect_grades(&rt, &shelf, &[0, 1, 1], counts)?;
    expect_refusal(&rt, shelf.admit(&volume, 0), 12, 3)?;
    assert!(&rt; shelf.withdraw(3).is_ok());
    expect_refusal(&rt, shelf.ask(Kind::Restraint, 3, 8, &mut sheet), 13, 3)
}

#[test]
fn a_list(rt: HostRuntime) -> Result<(), Fail> {
    let bytes = three_rules(rt.alloc())?;
    let volume = RuleVolume::take_up(&bytes);
    let restrains = Call::Ask {
        kind: Kind::Restraint,
        first: 3,
        second: 8,
    };
    let calls = [
        Call::Admit { volume, index: 0 },
        Call::Admit { volume, index: 1 },
        restrains,
        Call::Admit { volume, index: 0 },
        Call::Grade,
    ];
    let mut answers = [Answer::Done; 8];
    assert_eq!(&rt; run(&calls, &mut answers), 5);
    assert!(&rt; matches!(answers[1], Answer::Done));
    assert!(&rt; matches!(answers[2], Answer::Yes(_)));
    let Answer::Refused(fault) = answers[3] else {
        return Err(Fail::new("not refused"));
    };
    assert_eq!(&rt; (fault.number(), fault.place()), (12, 3));
    let Answer::Graded { counts, grades } = answers[4] else {
        return Err(Fail::new("not graded"));
    };
    assert_eq!(&rt; (counts.reliances, counts.restraints), (0, 1));
    assert_eq!(&rt; (grades[0], grades[1], grades[2]), (0, 1, 0));
    assert!(&rt; matches!(answers[7], Answer::Done));
    Ok(())
}
