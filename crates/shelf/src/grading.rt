//! The least numbering of the rules that a shelf holds.
ghost use Rattle.std.specs.Prelude.{◌≡◌, ℕ, ◌<◌, ◌≤◌, ◌⊎◌, ◌↔◌, ◌++◌, Decides, IsSome, map, drop, length, slice_index};
ghost use Rattle.std.specs.List.{position_or_len};
ghost use Rattle.rules.specs.Logic.{Each};
ghost use Rattle.grades.specs.Pairs.{HasSlot, Related};
ghost use Rattle.shelf.specs.Held.{rules_on};
ghost use Rattle.shelf.specs.Slots.{slot, sorted};
ghost use Rattle.shelf.specs.Calls.{GradeSays};
ghost use Rattle.shelf.specs.Grading.{rule_at, above?, HoldIn, HoldAt, Arranged};

use crate::shelf::Shelf;
use arrayvec::ArrayVec;
use faults::ShelfFault;
use grades::{Pairs, Slots, least_numbering};
use reliances::{Kind, Sheet};
use volumes::NumberedRule;

/// How many ordered pairs of rules have each relation, a rule with itself too.
#[derive(Clone, Copy, PartialEq, Eq, Debug)]
pub struct PairCounts {
    pub reliances: u16,
    pub restraints: u16,
}

impl Shelf {
    /// Puts the least numbering that keeps the reliances of the rules held into the list, by rising rule number; later entries
    /// stay. The answer tells how many reliances and restraints there are. Refused: 22 where no numbering keeps them, and then
    /// the list is as it was.
    pub fn grade(&self, grades: &mut [u8; 64]) -> Result<PairCounts, ShelfFault>
        ensures { GradeSays (rules_on self.now) result grades.old grades.new }
    {
        let held = held_slots(&self.slots);
        let reliances = related(&self.slots, Kind::Positive);
        let restraints = related(&self.slots, Kind::Restraint);
        let Some(numbers) = least_numbering(held, &reliances, &restraints) else {
            return Err(ShelfFault::NoNumbering);
        };
        let order = arrange(&self.slots);
        put_numbers(&order, &numbers, grades);
        Ok(PairCounts {
            reliances: reliances.count(),
            restraints: restraints.count(),
        })
    }
}

// The slots that have rules.
fn held_slots(slots: &[Option<NumberedRule>; 64]) -> Slots
    ensures { (i : ℕ) → HasSlot result i ↔ IsSome (slot slots.now i) }
{
    let mut held = Slots::new();
    for i in 0..64 {
        if slots[i].is_some() {
            held.put(i);
        }
    }
    held
}

// The pairs of slots between whose rules the relation holds.
fn related(slots: &[Option<NumberedRule>; 64], kind: Kind) -> Pairs
    ensures { (i j : ℕ) → Related result i j ↔ HoldAt kind slots.now i j }
{
    let mut pairs = Pairs::new();
    let mut sheet = Sheet::BLANK;
    for first in 0..64 {
        relate_from(slots, kind, first, &mut pairs, &mut sheet);
    }
    pairs
}

// Adds the pairs of which this slot is the first.
fn relate_from(
    slots: &[Option<NumberedRule>; 64],
    kind: Kind,
    first: usize,
    pairs: &mut Pairs,
    sheet: &mut Sheet,
)
    requires { first < 64 }
    ensures { (i j : ℕ) → Related pairs.new i j ↔ (Related pairs.old i j ⊎ ((i ≡ first) × HoldAt kind slots.now i j)) }
{
    for second in 0..64 {
        if holds(kind, &slots[first], &slots[second], sheet) {
            pairs.put(first, second);
        }
    }
}

// Whether both slots have rules and the relation holds between them. Whatever is on the sheet serves.
fn holds(
    kind: Kind,
    first: &Option<NumberedRule>,
    second: &Option<NumberedRule>,
    sheet: &mut Sheet,
) -> bool
    ensures { Decides result (HoldIn kind first.now second.now) }
{
    let (Some(first), Some(second)) = (first, second) else {
        return false;
    };
    reliances::ask(kind, &first.rule, &second.rule, sheet)
}

// The slots that have rules, by the rules' rising numbers.
fn arrange(slots: &[Option<NumberedRule>; 64]) -> ArrayVec<usize, 64>
    ensures { Arranged slots.now (sorted slots.now) result.items }
{
    let mut order = ArrayVec::new();
    for i in (0..64).rev() {
        if slots[i].is_some() {
            let place = place(slots, &order, number_at(slots, i));
            order.insert(place, i);
        }
    }
    order
}

// The first place in the list of a slot whose rule has a greater number, or the end.
fn place(slots: &[Option<NumberedRule>; 64], order: &[usize], number: u16) -> usize
    ensures { result ≡ position_or_len (above? slots.now number) order.now }
{
    for (place, i) in order.iter().enumerate() {
        if number < number_at(slots, *i) {
            return place;
        }
    }
    order.len()
}

// The number of the rule in the slot.
fn number_at(slots: &[Option<NumberedRule>; 64], i: usize) -> u16
    ensures { result ≡ (rule_at slots.now i).number }
{
    match slots.get(i) {
        Some(Some(held)) => held.number,
        _ => 0,
    }
}

// Puts the numbers of the slots into the list, in this order.
fn put_numbers(order: &[usize], numbers: &[u8; 64], grades: &mut [u8; 64])
    requires few { length order.now ≤ 64 }
    requires within { Each (λ i. i < 64) order.now }
    ensures { grades.new ≡ map (slice_index numbers.now) order.now ++ drop (length order.now) grades.old }
{
    for (place, slot) in order.iter().enumerate() {
        grades[place] = numbers[*slot];
    }
}
