// Alternatives to an application: matches of the head that spare a null which the application gave.
ghost use Rattle.std.specs.Prelude.{◌≡◌, map, Decides};
ghost use Rattle.rules.specs.Matches.{under};
ghost use Rattle.rules.specs.Reliances.{Alternative};
ghost use Rattle.rules.specs.Rules.{meaning, order_of};
ghost use Rattle.matches.specs.Lists.{look, formulas, HasAlternative, AlternativeSparing};
ghost use Rattle.matches.specs.Matching.{stands_in, solve, sparing, bound, agrees?, spares?, chosen?};

use crate::Trigger;
use crate::facts::{are_held, has};
use crate::filling::{atom_under, look_up};
use crate::slots::Slots;
use rules::{Atom, Term};

impl Trigger<'_> {
    /// Whether `k` is an alternative, on the facts, for the application of the rule by the values.
    pub fn is_alternative(self, k: &[Term]) -> bool
        ensures { Decides result (Alternative (meaning self.entry.rule.now) (look self.entry.values.now) (formulas self.entry.facts.now) (look k.now)) }
    {
        self.is_chosen(k)
    }

    // The same, as the model has it.
    fn is_chosen(self, k: &[Term]) -> bool
        ensures { result ≡ chosen? (meaning self.entry.rule.now) (look self.entry.values.now) (look k.now) (formulas self.entry.facts.now) }
    {
        self.agrees(k) && are_held(self.rule.head(), k, self.facts) && self.spares(k)
    }

    /// An alternative that spares the null of the variable `spared`, or none where there is none. What the head does not
    /// bind is as the values say.
    pub fn find_alternative(self, spared: u16) -> Option<[Term; 12]>
        ensures { AlternativeSparing (meaning self.entry.rule.now) (look self.entry.values.now) (formulas self.entry.facts.now) spared result }
    {
        if !self.rule.is_existential(spared) {
            return None;
        }
        let found = self.find_without(spared)?;
        Some(found.fill(self.values))
    }

    /// Whether there is an alternative, on the facts, for the application of the rule by the values.
    pub fn has_alternative(self) -> bool
        ensures { Decides result (HasAlternative (meaning self.entry.rule.now) (look self.entry.values.now) (formulas self.entry.facts.now)) }
    {
        (0..12)
            .filter(|v| self.rule.is_existential(*v))
            .any(|v| self.find_without(v).is_some())
    }

    /// What maps the head into the facts without the null of the variable.
    fn find_without(self, v: u16) -> Option<Slots>
        ensures { result ≡ solve (sparing (look self.entry.values.now v) (formulas self.entry.facts.now)) (formulas (order_of self.entry.rule.now)) (bound (meaning self.entry.rule.now) (look self.entry.values.now)) }
    {
        Slots::bound(self).map_into(self.facts, Some(self.value(v)), self.rule.search_order())
    }

    /// Whether `k` gives the universal variables what the values give them.
    fn agrees(self, k: &[Term]) -> bool
        ensures { result ≡ agrees? (meaning self.entry.rule.now) (look self.entry.values.now) (look k.now) }
    {
        (0..12)
            .filter(|v| self.rule.is_universal(*v))
            .all(|v| self.gives(v, look_up(k, v as usize)))
    }

    /// Whether the null of some existential variable stands in no head atom under `k`.
    fn spares(self, k: &[Term]) -> bool
        ensures { result ≡ spares? (meaning self.entry.rule.now) (look self.entry.values.now) (look k.now) }
    {
        (0..12)
            .filter(|v| self.rule.is_existential(*v))
            .any(|v| !stands_under(self.value(v), self.rule.head(), k))
    }
}

/// Whether the term stands in one of the atoms under `k`.
fn stands_under(t: Term, atoms: &[Atom], k: &[Term]) -> bool
    ensures { result ≡ stands_in t (map (under (look k.now)) (formulas atoms.now)) }
{
    atoms.iter().any(|a| has(&atom_under(a, k), t))
}
