ghost use Rattle.std.specs.Prelude.{◌≡◌, Decides};
ghost use Rattle.rules.specs.Matches.{Match, Satisfied};
ghost use Rattle.rules.specs.Rules.{meaning};
ghost use Rattle.matches.specs.Lists.{look, formulas};
ghost use Rattle.matches.specs.Matching.{same};

use crate::facts::are_held;
use crate::filling::look_up;
use crate::slots::Slots;
use rules::{Atom, Rule, Term};

/// A rule, what its variables are given, and the facts at hand. `values` gives variable i the term at place i, and past its
/// end the constant 0.
#[derive(Clone, Copy)]
pub struct Trigger<'a> {
    pub rule: &'a Rule,
    pub values: &'a [Term],
    pub facts: &'a [Atom],
}

impl Trigger<'_> {
    /// Whether every body atom under the values is one of the facts.
    pub fn is_match(self) -> bool
        ensures { Decides result (Match (meaning self.entry.rule.now) (look self.entry.values.now) (formulas self.entry.facts.now)) }
    {
        are_held(self.rule.body(), self.values, self.facts)
    }

    /// Whether the existential variables can be given terms so that every head atom is one of the facts.
    pub fn is_satisfied(self) -> bool
        ensures { Decides result (Satisfied (meaning self.entry.rule.now) (look self.entry.values.now) (formulas self.entry.facts.now)) }
    {
        Slots::bound(self)
            .map_into(self.facts, None, self.rule.search_order())
            .is_some()
    }

    pub(crate) fn value(self, v: u16) -> Term
        ensures { result ≡ look self.entry.values.now v }
    {
        look_up(self.values, v as usize)
    }

    /// Whether the variable is given the term.
    pub(crate) fn gives(self, v: u16, t: Term) -> bool
        ensures { result ≡ same (look self.entry.values.now v) t }
    {
        self.value(v) == t
    }
}
