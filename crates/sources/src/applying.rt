//! The application of a rule on a source.
ghost use Rattle.std.specs.Prelude.{◌≡◌, ◌≤◌, length, map, take, Decides};
ghost use Rattle.rules.specs.Logic.{In, Each, formula_of};
ghost use Rattle.rules.specs.Matches.{under};
ghost use Rattle.rules.specs.Rules.{meaning};
ghost use Rattle.matches.specs.Lists.{look, formulas, under_atom};
ghost use Rattle.sources.specs.Additions.{own_facts};
ghost use Rattle.sources.specs.Applying.{ApplyAnswer};
ghost use Rattle.sources.specs.Numbering.{ValuesAnswer};

use crate::MOST;
use crate::addition::Addition;
use crate::matching::is_satisfied;
use crate::nulls::first_new;
use crate::numbering::with_nulls;
use crate::source::FactSource;
use faults::SourceFault;
use matches::{atom_under, sized};
use rules::{Atom, Rule, Term};

/// Whether the atom is one of the facts.
fn is_fact_of<S: FactSource>(source: &S, atom: &Atom) -> bool
    ensures { Decides result (In (formula_of atom.now) (S.facts source.now)) }
{
    for index in 0..source.count() {
        if let Ok(fact) = source.fact(index) {
            if fact == *atom {
                return true;
            }
        }
    }
    false
}

/// Whether each of the atoms, filled, is one of the facts.
fn are_facts_of<S: FactSource>(source: &S, atoms: &[Atom], values: &[Term; 12]) -> bool
    ensures { Decides result (Each (λ a. In (under (look values.now) a) (S.facts source.now)) (formulas atoms.now)) }
{
    for atom in atoms {
        if !is_fact_of(source, &atom_under(atom, values)) {
            return false;
        }
    }
    true
}

/// What the variables of the rule are given where it is applied by `found`, or the first refusal that concerns it.
fn application<S: FactSource>(
    rule: &Rule,
    source: &S,
    found: &[Term; 12],
) -> Result<[Term; 12], SourceFault>
    ensures { ValuesAnswer (meaning rule.now) (look found.now) (S.facts source.now) result }
{
    if !are_facts_of(source, rule.body(), found) {
        return Err(SourceFault::NoMatch);
    }
    if is_satisfied(rule, source, &mut [0; 6], found) {
        return Err(SourceFault::SatisfiedMatch);
    }
    let Some(values) = with_nulls(rule, found, first_new(source)) else {
        return Err(SourceFault::NullTooLarge);
    };
    if source.count() + rule.head().len() > MOST {
        return Err(SourceFault::TooManyFacts);
    }
    Ok(values)
}

/// The atoms, filled.
fn filled(atoms: &[Atom], values: &[Term; 12]) -> [Atom; 4]
    requires { length atoms.now ≤ 4 }
    ensures { take (length atoms.now) result ≡ map (under_atom (look values.now)) atoms.now }
{
    let mut facts = [Atom::BLANK; 4];
    for (place, atom) in atoms.iter().enumerate() {
        facts[place] = atom_under(atom, values);
    }
    facts
}

impl<S: FactSource> Addition<S> {
    /// Applies the rule on the facts below, by what `found` gives its universal variables: the addition's own facts are
    /// then the head's atoms, with new nulls for the existential ones. A declined call changes nothing.
    pub fn apply(&mut self, rule: &Rule, found: &[Term; 12]) -> Result<(), SourceFault>
        ensures below { self.new.below ≡ self.old.below }
        ensures answer { ApplyAnswer (meaning rule.now) (look found.now) (S.facts self.old.below) (own_facts self.old.own) result (own_facts self.new.own) }
    {
        let values = application(rule, &self.below, found)?;
        sized(rule);
        let head = rule.head();
        let facts = filled(head, &values);
        self.hold(&facts[..head.len()]);
        Ok(())
    }
}
