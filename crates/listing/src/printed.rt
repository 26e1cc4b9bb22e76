//! What is printed of calls and their answers.
ghost use Rattle.std.specs.Prelude.{◌≡◌, ◌++◌, IfOk, OnOk};
ghost use Rattle.lines.specs.Lines.{ended_text};
ghost use Rattle.listing.specs.Listing.{line_of};
ghost use Rattle.listing.specs.Calls.{all_texts, text_of, answer_text, grading_text, grade_lines};

use lines::{Line, line};
use reliances::Kind;
use shelf::{Answer, Call};
use std::alloc::{AllocError, Global};

/// What is printed of all answers to the calls, about rules of these numbers.
pub(crate) fn push_all(
    numbers: &[u16],
    calls: &[Call<'_>],
    answers: &[Answer],
    heap: Global,
) -> Result<Vec<u8>, AllocError>
    ensures { IfOk result (λ text. text.items ≡ all_texts numbers.now calls.now answers.now) }
{
    let mut text = Vec::new(heap);
    for i in 0..calls.len().min(answers.len()) {
        push_text(numbers, &calls[i], &answers[i], &mut text)?;
    }
    Ok(text)
}

/// What is printed of one.
fn push_text(
    numbers: &[u16],
    call: &Call<'_>,
    answer: &Answer,
    text: &mut Vec<u8>,
) -> Result<(), AllocError>
    ensures { OnOk result (text.new.items ≡ text.old.items ++ text_of numbers.now call.now answer.now) }
{
    match call {
        Call::Ask {
            kind,
            first,
            second,
        } => push_answer(*kind, *first, *second, answer, text),
        Call::Grade => push_grading(numbers, answer, text),
        _ => Ok(()),
    }
}

fn push_answer(
    kind: Kind,
    first: u16,
    second: u16,
    answer: &Answer,
    text: &mut Vec<u8>,
) -> Result<(), AllocError>
    ensures { OnOk result (text.new.items ≡ text.old.items ++ answer_text kind first second answer.now) }
{
    match answer {
        Answer::Yes(_) => push_line(&relation_line(kind, first, second), text),
        _ => Ok(()),
    }
}

fn relation_line(kind: Kind, first: u16, second: u16) -> Line
    ensures { result ≡ line_of kind first second }
{
    match kind {
        Kind::Positive => Line::Positive { first, second },
        Kind::Restraint => Line::Restraint { first, second },
    }
}

fn push_grading(numbers: &[u16], answer: &Answer, text: &mut Vec<u8>) -> Result<(), AllocError>
    ensures { OnOk result (text.new.items ≡ text.old.items ++ grading_text numbers.now answer.now) }
{
    match answer {
        Answer::Graded { grades, .. } => push_grades(numbers, grades, text),
        Answer::Refused(_) => push_line(&Line::NoGrades, text),
        _ => Ok(()),
    }
}

fn push_grades(numbers: &[u16], grades: &[u8], text: &mut Vec<u8>) -> Result<(), AllocError>
    ensures { OnOk result (text.new.items ≡ text.old.items ++ grade_lines numbers.now grades.now) }
{
    for i in 0..numbers.len().min(grades.len()) {
        let line = Line::Grade {
            rule: numbers[i],
            grade: grades[i],
        };
        push_line(&line, text)?;
    }
    Ok(())
}

/// Adds a line.
pub(crate) fn push_line(said: &Line, text: &mut Vec<u8>) -> Result<(), AllocError>
    ensures { OnOk result (text.new.items ≡ text.old.items ++ ended_text said.now) }
{
    let mut buffer = [0; 40];
    // A buffer of 40 bytes has room for every line.
    if let Ok(size) = line(said, &mut buffer) {
        text.extend_from_slice(&buffer[..size])?;
    }
    Ok(())
}
