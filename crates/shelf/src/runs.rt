//! Any list of calls on a new shelf.
ghost use Rattle.std.specs.Prelude.{◌≡◌};
ghost use Rattle.shelf.specs.Held.{rules_on, both_under};
ghost use Rattle.shelf.specs.Runs.{after, Right, DoneRight, PairRight, AskRight, VerifyRight, GradeRight, Ran};

use crate::calls::{Answer, Call};
use crate::shelf::Shelf;
use faults::ShelfFault;
use reliances::{Kind, Sheet};

/// Makes the calls on a new shelf, one after another, as many as there are places for answers, and writes the answer to each.
/// Tells how many were made; further places stay.
pub fn run(calls: &[Call<'_>], answers: &mut [Answer]) -> usize
    ensures { Ran calls.now result answers.old answers.new }
{
    let mut shelf = Shelf::new();
    let made = calls.len().min(answers.len());
    for i in 0..made {
        answers[i] = make(&mut shelf, calls[i]);
    }
    made
}

fn make(shelf: &mut Shelf, call: Call<'_>) -> Answer
    ensures right { Right (rules_on shelf.old) call.entry result }
    ensures then { rules_on shelf.new ≡ after (rules_on shelf.old) call.entry }
{
    match call {
        Call::Admit { volume, index } => tell(shelf.admit(&volume, index)),
        Call::Withdraw { number } => tell(shelf.withdraw(number)),
        Call::Ask {
            kind,
            first,
            second,
        } => ask(shelf, kind, first, second),
        Call::Verify {
            kind,
            first,
            second,
            sheet,
        } => verify(shelf, kind, first, second, sheet),
        Call::Grade => grade(shelf),
    }
}

fn tell(done: Result<(), ShelfFault>) -> Answer
    ensures { DoneRight done result }
{
    match done {
        Ok(()) => Answer::Done,
        Err(fault) => Answer::Refused(fault),
    }
}

fn ask(shelf: &Shelf, kind: Kind, first: u16, second: u16) -> Answer
    ensures { PairRight (AskRight kind) (both_under (rules_on shelf.now) first second) result }
{
    let mut sheet = Sheet::BLANK;
    match shelf.ask(kind, first, second, &mut sheet) {
        Ok(true) => Answer::Yes(sheet),
        Ok(false) => Answer::No,
        Err(fault) => Answer::Refused(fault),
    }
}

fn verify(shelf: &Shelf, kind: Kind, first: u16, second: u16, sheet: &Sheet) -> Answer
    ensures { PairRight (VerifyRight kind sheet.now) (both_under (rules_on shelf.now) first second) result }
{
    match shelf.verify(kind, first, second, sheet) {
        Ok(yes) => Answer::Verified(yes),
        Err(fault) => Answer::Refused(fault),
    }
}

fn grade(shelf: &Shelf) -> Answer
    ensures { GradeRight (rules_on shelf.now) result }
{
    let mut grades = [0; 64];
    match shelf.grade(&mut grades) {
        Ok(counts) => Answer::Graded { counts, grades },
        Err(fault) => Answer::Refused(fault),
    }
}
