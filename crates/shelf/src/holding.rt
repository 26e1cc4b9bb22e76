//! The calls that change which rules a shelf holds, and a copy of one of them.
ghost use Rattle.std.specs.Prelude.{◌≡◌, []};
ghost use Rattle.std.specs.Result.{result_map_both};
ghost use Rattle.rules.specs.Rules.{meaning};
ghost use Rattle.volumes.specs.Volumes.{rules_of};
ghost use Rattle.shelf.specs.Held.{rules_on, under, both_under, admission, with_admitted, without, done};

use crate::shelf::{Shelf, find_free, find_number, find_rule};
use faults::ShelfFault;
use rules::Rule;
use volumes::RuleVolume;

impl Shelf {
    /// A shelf that holds no rules.
    pub fn new() -> Shelf
        ensures { rules_on result ≡ [] }
    {
        Shelf { slots: [None; 64] }
    }

    /// Adds the rule of an index in the contents of the volume, under its number. Refused: 14 where there are not so many
    /// rules, 12 where its number is held, 11 where 64 rules are held.
    pub fn admit(&mut self, volume: &RuleVolume, index: usize) -> Result<(), ShelfFault>
        ensures answer { result ≡ done (admission (rules_on self.old) (rules_of volume.now.bytes.now) index) }
        ensures then { rules_on self.new
            ≡ with_admitted (rules_on self.old) (admission (rules_on self.old) (rules_of volume.now.bytes.now) index) }
    {
        let Some(rule) = volume.rule(index) else {
            return Err(ShelfFault::NoRule { index });
        };
        let number = rule.number;
        if find_number(&self.slots, number).is_some() {
            return Err(ShelfFault::AlreadyHeld { number });
        }
        let Some(free) = find_free(&self.slots) else {
            return Err(ShelfFault::Full { number });
        };
        self.slots[free] = Some(rule);
        Ok(())
    }

    /// Takes the rule of this number off the shelf. Refused: 13 where none is held under it.
    pub fn withdraw(&mut self, number: u16) -> Result<(), ShelfFault>
        ensures answer { result ≡ done (under (rules_on self.old) number) }
        ensures then { rules_on self.new ≡ without (rules_on self.old) number }
    {
        let Some(at) = find_number(&self.slots, number) else {
            return Err(ShelfFault::NotHeld { number });
        };
        self.slots[at] = None;
        Ok(())
    }

    /// The rule held under the number, or refusal 13.
    pub(crate) fn held(&self, number: u16) -> Result<&Rule, ShelfFault>
        ensures { result_map_both (λ rule. meaning rule.now) (λ f. f) result ≡ under (rules_on self.now) number }
    {
        let Some(rule) = find_rule(&self.slots, number) else {
            return Err(ShelfFault::NotHeld { number });
        };
        Ok(rule)
    }

    /// The rules held under both numbers, or refusal 13 of the first that is not held.
    pub(crate) fn both(&self, first: u16, second: u16) -> Result<(&Rule, &Rule), ShelfFault>
        ensures { result_map_both (λ r. (meaning r.0.now, meaning r.1.now)) (λ f. f) result ≡ both_under (rules_on self.now) first second }
    {
        let first = self.held(first)?;
        let second = self.held(second)?;
        Ok((first, second))
    }

    /// A copy of the rule held under the number. Refused: 13 where none is.
    pub fn rule(&self, number: u16) -> Result<Rule, ShelfFault>
        ensures { result_map_both meaning (λ f. f) result ≡ under (rules_on self.now) number }
    {
        Ok(*self.held(number)?)
    }
}
