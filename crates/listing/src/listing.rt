//! What is printed of bytes.
ghost use Rattle.std.specs.Prelude.{IfOk, length, replicate};
ghost use Rattle.volumes.specs.Volumes.{rules_of};
ghost use Rattle.shelf.specs.declared.calls.Answer.TheVariants.{Done};
ghost use Rattle.shelf.specs.Runs.{Ran};
ghost use Rattle.listing.specs.Listing.{Printed, Listed};
ghost use Rattle.listing.specs.Calls.{RunPrinted};

use crate::asked::{calls_for, numbers_of};
use crate::printed::{push_all, push_line};
use lines::Line;
use shelf::{Answer, Call, run};
use std::alloc::{AllocError, Global};
use volumes::{RuleVolume, check_rules};

/// The listing of the rules that the bytes are the volume of, or the line of their first fault.
pub fn list(bytes: &[u8], heap: Global) -> Result<Vec<u8>, AllocError>
    ensures { IfOk result (λ text. Printed bytes.now text.items) }
{
    match check_rules(bytes) {
        Ok(_) => list_rules(&RuleVolume::take_up(bytes), heap),
        Err(fault) => {
            let mut text = Vec::new(heap);
            push_line(&Line::Declined(fault), &mut text)?;
            Ok(text)
        }
    }
}

/// The listing of the rules of a volume: all of them are admitted to a shelf, and then it is asked about each two, and for
/// their grades.
fn list_rules(volume: &RuleVolume, heap: Global) -> Result<Vec<u8>, AllocError>
    ensures { IfOk result (λ text. Listed (rules_of volume.now.bytes.now) text.items) }
{
    let numbers = numbers_of(volume);
    let calls = calls_for(volume, numbers.as_slice(), heap)?;
    print_run(numbers.as_slice(), calls.as_slice(), heap)
}

/// What is printed of the calls on a new shelf.
fn print_run(numbers: &[u16], calls: &[Call<'_>], heap: Global) -> Result<Vec<u8>, AllocError>
    ensures { IfOk result (λ text. RunPrinted numbers.now calls.now text.items) }
{
    let answers = answers_to(calls, heap)?;
    push_all(numbers, calls, answers.as_slice(), heap)
}

/// What the calls are answered on a new shelf.
fn answers_to(calls: &[Call<'_>], heap: Global) -> Result<Vec<Answer>, AllocError>
    ensures { IfOk result (λ answers. Ran calls.now (length calls.now) (replicate (length calls.now) Done) answers.items) }
{
    let mut answers = vec![in heap; Answer::Done; calls.len()]?;
    run(calls, answers.as_mut_slice());
    Ok(answers)
}
