//! Lists of calls on a new shelf.
use crate::archive::{flat, frame, two_rules};
use crate::build::{Written, atom, c, volume, x};
use reliances::{Kind, Sheet, verify};
use shelf::{Answer, Call, PairCounts, run};
use std::process::Abort;
use std::test::Fail;
use volumes::RuleVolume;

/// An answer in short: its name, and two numbers of what it says.
type Short = (&'static str, u16, usize);

fn short(answer: &Answer) -> Short {
    match answer {
        Answer::Done => ("done", 0, 0),
        Answer::Refused(fault) => ("refused", u16::from(fault.number()), fault.place()),
        Answer::Yes(_) => ("yes", 0, 0),
        Answer::No => ("no", 0, 0),
        Answer::Verified(told) => ("verified", u16::from(*told), 0),
        Answer::Graded { counts, .. } => ("graded", counts.reliances, counts.restraints as usize),
    }
}

fn expect_answers(rt: &impl Abort, answers: &[Answer], due: &[Short]) {
    assert_eq!(rt; answers.len(), due.len());
    for (i, (answer, due)) in answers.iter().zip(due).enumerate() {
        assert_eq!(rt; (i, short(answer)), (i, *due));
    }
}

// What stands at the places before, and no call is answered.
const BEFORE: Answer = Answer::Graded {
    counts: PairCounts {
        reliances: 77,
        restraints: 77,
    },
    grades: [77; 64],
};

const STAYS: Short = ("graded", 77, 77);

fn ask<'a>(kind: Kind, first: u16, second: u16) -> Call<'a> {
    Call::Ask {
        kind,
        first,
        second,
    }
}

fn verify_call<'a>(kind: Kind, first: u16, second: u16, sheet: &'a Sheet) -> Call<'a> {
    Call::Verify {
        kind,
        first,
        second,
        sheet,
    }
}

/// The sheet of a yes, from a run.
fn shown_by(calls: &[Call<'_>]) -> Result<Sheet, Fail> {
    let mut answers = [BEFORE; 3];
    run(calls, &mut answers);
    match answers[2] {
        Answer::Yes(sheet) => Ok(sheet),
        _ => Err(Fail::new("no sheet")),
    }
}

/// The volume's rules are admitted, asked about and withdrawn, and the sheet is tested.
fn every_kind<'a>(volume: RuleVolume<'a>, sheet: &'a Sheet) -> [Call<'a>; 19] {
    [
        Call::Admit { volume, index: 1 },
        Call::Admit { volume, index: 1 },
        Call::Admit { volume, index: 2 },
        ask(Kind::Restraint, 3, 8),
        Call::Admit { volume, index: 0 },
        ask(Kind::Restraint, 3, 8),
        ask(Kind::Restraint, 8, 3),
        ask(Kind::Positive, 3, 8),
        verify_call(Kind::Restraint, 3, 8, sheet),
        verify_call(Kind::Restraint, 8, 3, sheet),
        verify_call(Kind::Positive, 3, 8, sheet),
        Call::Grade,
        Call::Withdraw { number: 3 },
        Call::Withdraw { number: 3 },
        ask(Kind::Restraint, 3, 8),
        verify_call(Kind::Restraint, 8, 3, sheet),
        verify_call(Kind::Restraint, 9, 3, sheet),
        ask(Kind::Positive, 8, 8),
        Call::Grade,
    ]
}

const ANSWERED: [Short; 19] = [
    ("done", 0, 0),
    ("refused", 12, 8),
    ("refused", 14, 2),
    ("refused", 13, 3),
    ("done", 0, 0),
    ("yes", 0, 0),
    ("no", 0, 0),
    ("no", 0, 0),
    ("verified", 1, 0),
    ("verified", 0, 0),
    ("verified", 0, 0),
    ("graded", 0, 1),
    ("done", 0, 0),
    ("refused", 13, 3),
    ("refused", 13, 3),
    ("refused", 13, 3),
    ("refused", 13, 9),
    ("no", 0, 0),
    ("graded", 0, 0),
];

/// Every kind of call, and declined ones among them.
#[test]
fn every_call(rt: HostRuntime) -> Result<(), Fail> {
    let bytes = two_rules(rt.alloc())?;
    let volume = RuleVolume::take_up(&bytes);
    let sheet = shown_by(&[
        Call::Admit { volume, index: 0 },
        Call::Admit { volume, index: 1 },
        ask(Kind::Restraint, 3, 8),
    ])?;
    let mut answers = [BEFORE; 19];
    assert_eq!(&rt; run(&every_kind(volume, &sheet), &mut answers), 19);
    expect_answers(&rt, &answers, &ANSWERED);
    expect_shown(&rt, &bytes, &answers[5])?;
    expect_grades(&rt, &answers[11], &[0, 1]);
    expect_grades(&rt, &answers[18], &[0]);
    Ok(())
}

/// The answer's sheet shows that the volume's first rule restrains its second.
fn expect_shown(rt: &impl Abort, bytes: &[u8], answer: &Answer) -> Result<(), Fail> {
    let volume = RuleVolume::take_up(bytes);
    let first = volume.rule(0).ok_or("no first rule")?;
    let second = volume.rule(1).ok_or("no second rule")?;
    let Answer::Yes(sheet) = answer else {
        return Err(Fail::new("no sheet"));
    };
    assert!(rt; verify(Kind::Restraint, &first.rule, &second.rule, sheet));
    Ok(())
}

/// The answer has these grades, and then 0.
fn expect_grades(rt: &impl Abort, answer: &Answer, due: &[u8]) {
    if let Answer::Graded { grades, .. } = answer {
        for (i, grade) in grades.iter().enumerate() {
            assert_eq!(rt; (i, *grade), (i, due.get(i).copied().unwrap_or(0)));
        }
    }
}

/// Rule 7 restrains rule 6 and relies on it.
#[test]
fn no_numbering(rt: HostRuntime) -> Result<(), Fail> {
    let ninth = Written {
        number: 7,
        body: &[flat()],
        head: &[atom(3, &[x(0), c(9)])],
    };
    let placeholder = Written {
        number: 6,
        body: &[frame()],
        head: &[flat()],
    };
    let bytes = volume(rt.alloc(), &[placeholder, ninth])?;
    let volume = RuleVolume::take_up(&bytes);
    let calls = [
        Call::Admit { volume, index: 1 },
        Call::Admit { volume, index: 0 },
        Call::Grade,
        Call::Withdraw { number: 6 },
        Call::Grade,
    ];
    let mut answers = [BEFORE; 5];
    assert_eq!(&rt; run(&calls, &mut answers), 5);
    let due = [
        ("done", 0, 0),
        ("done", 0, 0),
        ("refused", 22, 0),
        ("done", 0, 0),
        ("graded", 0, 0),
    ];
    expect_answers(&rt, &answers, &due);
    Ok(())
}

/// Fewer places for answers than calls, and more.
#[test]
fn places(rt: HostRuntime) -> Result<(), Fail> {
    let bytes = two_rules(rt.alloc())?;
    let volume = RuleVolume::take_up(&bytes);
    let calls = [
        Call::Admit { volume, index: 1 },
        Call::Grade,
        Call::Withdraw { number: 8 },
        Call::Withdraw { number: 8 },
    ];
    let due = [
        ("done", 0, 0),
        ("graded", 0, 0),
        ("done", 0, 0),
        ("refused", 13, 8),
    ];
    for room in 0..7 {
        let mut answers = [BEFORE; 6];
        let made = run(&calls, &mut answers[..room]);
        assert_eq!(&rt; made, room.min(4));
        for (i, answer) in answers.iter().enumerate() {
            let due = due.get(i).copied().filter(|_| i < made).unwrap_or(STAYS);
            assert_eq!(&rt; (i, short(answer)), (i, due));
        }
    }
    Ok(())
}

#[test]
fn no_calls(rt: HostRuntime) -> Result<(), Fail> {
    let mut answers = [BEFORE; 2];
    assert_eq!(&rt; run(&[], &mut answers), 0);
    expect_answers(&rt, &answers, &[STAYS, STAYS]);
    assert_eq!(&rt; run(&[], &mut []), 0);
    assert_eq!(&rt; run(&[Call::Grade], &mut []), 0);
    expect_answers(&rt, &answers, &[STAYS, STAYS]);
    Ok(())
}
