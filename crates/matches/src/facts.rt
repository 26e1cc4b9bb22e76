// What stands in a short list of facts.
ghost use Rattle.std.specs.Prelude.{◌≡◌, Decides};
ghost use Rattle.rules.specs.Logic.{Each, formula_of};
ghost use Rattle.rules.specs.Bounds.{every};
ghost use Rattle.rules.specs.Matches.{Stands, under};
ghost use Rattle.matches.specs.Lists.{look, formulas, FactAtom};
ghost use Rattle.matches.specs.Matching.{stands, stands_in, is_ground, fact_atom?, holds, matches?};

use crate::filling::atom_under;
use rules::{Atom, Term};

/// Whether the term stands in one of the atoms.
pub fn stands_in(t: Term, list: &[Atom]) -> bool
    ensures { Decides result (Stands t (formulas list.now)) }
{
    is_in(t, list)
}

// The same, as the model has it: the public contract does not speak of the model.
pub(crate) fn is_in(t: Term, list: &[Atom]) -> bool
    ensures { result ≡ stands_in t (formulas list.now) }
{
    list.iter().any(|a| has(a, t))
}

/// Whether the term is one of the atom's terms.
pub(crate) fn has(a: &Atom, t: Term) -> bool
    ensures { result ≡ stands t (formula_of a.now).terms }
{
    // No `contains`, which goes by groups of eight: an atom has four terms at most.
    a.args().iter().any(|s| t == *s)
}

/// Whether each atom is a fact: one to four terms, which are constants and nulls.
pub fn are_facts(list: &[Atom]) -> bool
    ensures { Decides result (Each FactAtom list.now) }
{
    list.iter().all(is_fact)
}

fn is_fact(a: &Atom) -> bool
    ensures { result ≡ fact_atom? a.now }
{
    let terms = a.args();
    a.arity <= 4 && 1 <= terms.len() && terms.len() <= 4 && are_ground(terms)
}

fn are_ground(terms: &[Term]) -> bool
    ensures { result ≡ every is_ground terms.now }
{
    terms.iter().all(is_ground)
}

fn is_ground(t: &Term) -> bool
    ensures { result ≡ is_ground t.now }
{
    !matches!(*t, Term::Variable(_))
}

/// Whether each atom, with its variables as `h` says, is one of the facts.
pub(crate) fn are_held(atoms: &[Atom], h: &[Term], list: &[Atom]) -> bool
    ensures { result ≡ matches? (formulas atoms.now) (look h.now) (formulas list.now) }
{
    atoms.iter().all(|a| is_held(a, h, list))
}

fn is_held(a: &Atom, h: &[Term], list: &[Atom]) -> bool
    ensures { result ≡ holds (under (look h.now) (formula_of a.now)) (formulas list.now) }
{
    let filled = atom_under(a, h);
    // No `contains`, which looks at eight facts before it ends.
    list.iter().any(|f| *f == filled)
}
