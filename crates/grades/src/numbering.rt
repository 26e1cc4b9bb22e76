//! The least numbering. All slots begin at 0. Of those that have the highest number so far, the ones that need a greater one
//! than some other of them are raised by one, until none is left; where all need a greater one, there is no numbering.
ghost use Rattle.grades.specs.Numbering.{Numbered};
ghost use Rattle.grades.specs.Rising.{Above, Given};

use crate::{Pairs, Slots};

/// The least numbering of the slots held that keeps the two relations between them, with 0 for each other slot, or none where
/// no numbering keeps them. `at_most` has the pairs of which the first slot's number must be at most the second's, and
/// `less_than` those of which it must be less.
pub fn least_numbering(held: Slots, at_most: &Pairs, less_than: &Pairs) -> Option<[u8; 64]>
    ensures { Numbered held at_most.now less_than.now result }
{
    let mut numbers = [0; 64];
    let mut highest = 0;
    let mut left = held;
    while !left.is_empty() {
        let next = above(left, at_most, less_than);
        if left.without(next).is_empty() {
            return None;
        }
        highest += 1;
        give(highest, next, &mut numbers);
        left = next;
    }
    Some(numbers)
}

// The slots of the set that need a greater number than some slot of it.
fn above(set: Slots, at_most: &Pairs, less_than: &Pairs) -> Slots
    ensures { Above set at_most.now less_than.now result }
{
    let mut found = Slots::new();
    let mut new = less_than.after(set).within(set);
    while !new.is_empty() {
        found = found.with(new);
        new = at_most.after(new).within(set).without(found);
    }
    found
}

// Gives the number to each slot of the set.
fn give(number: u8, set: Slots, numbers: &mut [u8; 64])
    ensures { Given number set numbers.old numbers.new }
{
    let mut rest = set;
    while let Some(slot) = rest.take_lowest() {
        numbers[slot] = number;
    }
}
