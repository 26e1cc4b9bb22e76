// The 36 slots of a search: the first rule's variables, the second rule's, and the values of an alternative.
// The flags of rigid slots are a list of their own: they stay as they are through a search, while the slots change.
ghost use Rattle.std.specs.Prelude.{◌≡◌, ◌≤◌, Decides};
ghost use Rattle.rules.specs.Bounds.{flags, FlagsAre};
ghost use Rattle.rules.specs.Logic.{formula_of};
ghost use Rattle.rules.specs.Rules.{meaning};
ghost use Rattle.matches.specs.Lists.{formulas};
ghost use Rattle.reliances.specs.Unification.{start, part, wide, is_rigid?, any_rigid?, HasRigid};
ghost use Rattle.reliances.specs.Searching.{rigid_for};

use crate::Kind;
use rules::{Atom, Rule, Term, is_flagged};
use std::array;

/// At first each slot holds the null of its own number.
pub(crate) fn start_slots() -> [Term; 36]
    ensures { result ≡ start }
{
    array::from_fn(|i| Term::Null(i as u16))
}

/// Twelve slots from a slot on.
fn twelve(sigma: &[Term; 36], from: usize) -> &[Term; 12]
    requires { from ≤ 24 }
    ensures { result.now ≡ part sigma.now from }
{
    sigma[from..].first_chunk().unwrap()
}

// Two names for two parts of the slots; what reads them is `twelve`.
/// The slots of the first rule's variables.
pub(crate) fn first_slots(sigma: &[Term; 36]) -> &[Term; 12]
    ensures { result.now ≡ part sigma.now 0 }
{
    twelve(sigma, 0)
}

/// The slots of the second rule's variables.
pub(crate) fn second_slots(sigma: &[Term; 36]) -> &[Term; 12]
    ensures { result.now ≡ part sigma.now 12 }
{
    twelve(sigma, 12)
}

/// The slots of the second rule's variables, and the alternative's after them.
pub(crate) fn wide_slots(sigma: &[Term; 36]) -> &[Term]
    ensures { result.now ≡ wide sigma.now }
{
    &sigma[12..]
}

/// The slots that keep their nulls in a search: those of the existential variables of a rule that is applied.
pub(crate) fn rigid_slots(kind: Kind, a: &Rule, b: &Rule) -> [bool; 36]
    ensures { FlagsAre result (rigid_for kind (meaning a.now) (meaning b.now)) }
{
    let mut rigid = [false; 36];
    rigid[..12].copy_from_slice(a.existential_flags());
    // A match on the kind: as a step of the trait `Relation` it would be said in two places, and no plainer.
    match kind {
        Kind::Positive => {}
        Kind::Restraint => rigid[12..24].copy_from_slice(b.existential_flags()),
    }
    rigid
}

fn is_rigid(t: Term, rigid: &[bool]) -> bool
    ensures { result ≡ is_rigid? (flags rigid.now) t }
{
    matches!(t, Term::Null(n) if is_flagged(rigid, n))
}

fn any_rigid(a: &Atom, rigid: &[bool]) -> bool
    ensures { result ≡ any_rigid? (flags rigid.now) (formula_of a.now).terms }
{
    a.args().iter().any(|t| is_rigid(*t, rigid))
}

/// Whether the null of a rigid slot stands in one of the atoms.
pub(crate) fn has_rigid(list: &[Atom], rigid: &[bool]) -> bool
    ensures { Decides result (HasRigid (flags rigid.now) (formulas list.now)) }
{
    list.iter().any(|a| any_rigid(a, rigid))
}
