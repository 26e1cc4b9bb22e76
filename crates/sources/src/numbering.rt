//! New nulls for the existential variables of a head.
ghost use Rattle.std.specs.Prelude.{◌≤◌, [], ◌∷◌};
ghost use Rattle.rules.specs.Bounds.{Plain};
ghost use Rattle.rules.specs.Logic.{Each, terms_of};
ghost use Rattle.rules.specs.Rules.{meaning};
ghost use Rattle.matches.specs.Lists.{look, formulas};
ghost use Rattle.sources.specs.Numbering.{GivenAnswer, FillingAnswer};

use crate::known::known_with;
use crate::matching::NOTHING_GIVEN;
use rules::{Atom, Rule, Term};

/// A variable that is not known is given the null of number `next`, and is known from then on. What comes back is the
/// number that is next then, or none where that null would pass 65,535.
fn number(term: Term, next: u32, known: &mut [bool; 12], values: &mut [Term; 12]) -> Option<u32>
    requires plain { Plain term }
    requires small { next ≤ 65536 }
    ensures { GivenAnswer (term ∷ []) next known.old values.old result known.new values.new }
{
    let Term::Variable(v) = term else {
        return Some(next);
    };
    let v = v as usize;
    if known[v] {
        return Some(next);
    }
    let Ok(null) = u16::try_from(next) else {
        return None;
    };
    known[v] = true;
    values[v] = Term::Null(null);
    Some(next + 1)
}

/// The same of each of the terms in turn.
fn number_all(
    terms: &[Term],
    from: u32,
    known: &mut [bool; 12],
    values: &mut [Term; 12],
) -> Option<u32>
    requires plain { Each Plain terms.now }
    requires small { from ≤ 65536 }
    ensures { GivenAnswer terms.now from known.old values.old result known.new values.new }
{
    let mut next = from;
    for term in terms {
        next = number(*term, next, known, values)?;
    }
    Some(next)
}

/// The same of the terms of each atom.
fn number_atoms(
    atoms: &[Atom],
    from: u32,
    known: &mut [bool; 12],
    values: &mut [Term; 12],
) -> Option<u32>
    requires plain { Each Plain (terms_of (formulas atoms.now)) }
    requires small { from ≤ 65536 }
    ensures { GivenAnswer (terms_of (formulas atoms.now)) from known.old values.old result known.new values.new }
{
    let mut next = from;
    for atom in atoms {
        next = number_all(atom.args(), next, known, values)?;
    }
    Some(next)
}

/// What `found` says, but for the rule's existential variables: they are given nulls from number `first` on, in the order
/// in which they first stand in the head. None where one would pass 65,535.
pub(crate) fn with_nulls(rule: &Rule, found: &[Term; 12], first: u32) -> Option<[Term; 12]>
    requires { first ≤ 65536 }
    ensures { FillingAnswer (meaning rule.now) (look found.now) first result }
{
    let mut known = known_with(NOTHING_GIVEN, rule.body());
    let mut values = *found;
    number_atoms(rule.head(), first, &mut known, &mut values)?;
    Some(values)
}
