//! What is timed of a volume and of a shelf, and what each answer says.
ghost use Rattle.std.specs.Prelude.{IfOk, length, replicate};
ghost use Rattle.grades.specs.Numbering.{Numbered};
ghost use Rattle.volumes.specs.Answers.{Checked};
ghost use Rattle.shelf.specs.declared.calls.Answer.TheVariants.{Done};
ghost use Rattle.shelf.specs.Calls.{GradeSays};
ghost use Rattle.shelf.specs.Held.{rules_on};
ghost use Rattle.shelf.specs.Runs.{Ran, no_grades};

use faults::{Fault, ShelfFault};
use grades::{Pairs, Slots, least_numbering};
use shelf::{Call, PairCounts, Shelf, run};
use std::alloc::{AllocError, Global};
use std::marker::PhantomData;
use timing::Work;
use volumes::Entries;

/// The check of a volume.
#[derive(Drop)]
pub struct Check<'a, E: Entries> {
    pub bytes: &'a [u8],
    pub entries: PhantomData<E>,
}

impl<'a, E: Entries> Work for Check<'a, E> {
    type Answer = Result<usize, Fault>;

    ghost Right = { λ w r. Checked (E.Says w.bytes.now) r };

    fn once(&self) -> Result<usize, Fault> {
        E::check(self.bytes)
    }
}

/// Calls on a new shelf.
#[derive(Clone, Copy)]
pub struct Calls<'a> {
    pub calls: &'a [Call<'a>],
    pub heap: Global,
}

impl<'a> Work for Calls<'a> {
    type Answer = Result<Vec<shelf::Answer>, AllocError>;

    ghost Right = { λ w r. IfOk r (λ answers. Ran w.calls.now (length w.calls.now) (replicate (length w.calls.now) Done) answers.items) };

    fn once(&self) -> Result<Vec<shelf::Answer>, AllocError> {
        let mut answers = vec![in self.heap; shelf::Answer::Done; self.calls.len()]?;
        run(self.calls, answers.as_mut_slice());
        Ok(answers)
    }
}

/// The grading of the rules that a shelf holds.
#[derive(Clone, Copy)]
pub struct Grading {
    pub shelf: Shelf,
}

impl Work for Grading {
    type Answer = (Result<PairCounts, ShelfFault>, [u8; 64]);

    ghost Right = { λ w r. GradeSays (rules_on w.shelf) r.0 no_grades r.1 };

    fn once(&self) -> (Result<PairCounts, ShelfFault>, [u8; 64]) {
        let mut grades = [0; 64];
        let counts = self.shelf.grade(&mut grades);
        (counts, grades)
    }
}

/// The least numbering of slots.
#[derive(Clone, Copy)]
pub struct Numbering {
    pub held: Slots,
    pub at_most: Pairs,
    pub less_than: Pairs,
}

impl Work for Numbering {
    type Answer = Option<[u8; 64]>;

    ghost Right = { λ w r. Numbered w.held w.at_most w.less_than r };

    fn once(&self) -> Option<[u8; 64]> {
        least_numbering(self.held, &self.at_most, &self.less_than)
    }
}
