// Whether the values give the existential variables nulls of their own.
ghost use Rattle.std.specs.Prelude.{◌≡◌, Decides};
ghost use Rattle.rules.specs.Bounds.{every};
ghost use Rattle.rules.specs.Matches.{Fresh};
ghost use Rattle.rules.specs.Rules.{meaning};
ghost use Rattle.matches.specs.Lists.{look, formulas};
ghost use Rattle.matches.specs.Matching.{existential_variables, is_null, apart?, fresh_at?};

use crate::Trigger;
use crate::facts::is_in;
use rules::Term;

impl Trigger<'_> {
    /// Whether each existential variable is given a null of its own, which stands nowhere in the facts.
    pub fn is_fresh(self) -> bool
        ensures { Decides result (Fresh (meaning self.entry.rule.now) (look self.entry.values.now) (formulas self.entry.facts.now)) }
    {
        (0..12)
            .filter(|v| self.rule.is_existential(*v))
            .all(|v| self.is_fresh_at(v))
    }

    fn is_fresh_at(self, v: u16) -> bool
        ensures { result ≡ fresh_at? (meaning self.entry.rule.now) (look self.entry.values.now) (formulas self.entry.facts.now) v }
    {
        is_null(self.value(v)) && !is_in(self.value(v), self.facts) && self.is_own(v)
    }

    /// Whether no other existential variable is given the same.
    fn is_own(self, v: u16) -> bool
        ensures { result ≡ every (apart? (look self.entry.values.now) v) (existential_variables (meaning self.entry.rule.now)) }
    {
        (0..12)
            .filter(|w| self.rule.is_existential(*w))
            .all(|w| self.is_apart(v, w))
    }

    /// Whether the variables are one, or given two terms.
    fn is_apart(self, v: u16, w: u16) -> bool
        ensures { result ≡ apart? (look self.entry.values.now) v w }
    {
        v == w || !self.gives(v, self.value(w))
    }
}

fn is_null(t: Term) -> bool
    ensures { result ≡ is_null t }
{
    matches!(t, Term::Null(_))
}
