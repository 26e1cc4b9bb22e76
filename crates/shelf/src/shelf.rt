//! The shelf and its slots.
ghost use Rattle.std.specs.Prelude.{◌≡◌, ℕ, ◌<◌, true, false, Some, None, length, IsSome, MatchOption};
ghost use Rattle.shelf.specs.Slots.{slot, slot_has?};

use rules::Rule;
use volumes::NumberedRule;

/// At most 64 rules, each under a number of its own.
#[derive(Clone, Copy)]
pub struct Shelf {
    // A rule stays in its slot for as long as it is held. A slot is free again once its rule is withdrawn.
    pub(crate) slots: [Option<NumberedRule>; 64],
    // No number stands in two slots.
    ghost apart: { (n i j : ℕ) → slot_has? n (slot slots i) ≡ true → slot_has? n (slot slots j) ≡ true → i ≡ j },
}

/// The slot that has the rule of this number.
pub(crate) fn find_number(slots: &[Option<NumberedRule>; 64], number: u16) -> Option<usize>
    ensures long { length slots.now ≡ 64 }
    ensures found { MatchOption result ((i : ℕ) → slot_has? number (slot slots.now i) ≡ false)
        (λ i. (i < 64) × (slot_has? number (slot slots.now i) ≡ true)) }
{
    for (index, slot) in slots.iter().enumerate() {
        if has_number(slot, number) {
            return Some(index);
        }
    }
    None
}

/// A slot that is free.
pub(crate) fn find_free(slots: &[Option<NumberedRule>; 64]) -> Option<usize>
    ensures long { length slots.now ≡ 64 }
    ensures found { MatchOption result ((i : ℕ) → i < 64 → IsSome (slot slots.now i)) (λ i. (i < 64) × (slot slots.now i ≡ None)) }
{
    slots.iter().position(Option::is_none)
}

fn has_number(slot: &Option<NumberedRule>, number: u16) -> bool
    ensures { result ≡ slot_has? number slot.now }
{
    match slot {
        Some(held) => held.number == number,
        None => false,
    }
}

pub(crate) fn find_rule(slots: &[Option<NumberedRule>; 64], number: u16) -> Option<&Rule>
    ensures { MatchOption result ((i : ℕ) → slot_has? number (slot slots.now i) ≡ false)
        (λ rule. (i : ℕ) × (slot slots.now i ≡ Some (record { number = number; rule = rule.now }))) }
{
    for slot in slots {
        if let Some(held) = slot {
            if held.number == number {
                return Some(&held.rule);
            }
        }
    }
    None
}
