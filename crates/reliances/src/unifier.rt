// Unification. A substitution gives each of 36 slots a constant or a null, and a null's number is a slot; a null whose
// slot is not rigid can be replaced by another term.
ghost use Rattle.std.specs.Prelude.{◌≡◌, ◌≤◌, Option, map};
ghost use Rattle.std.specs.Option.{option_map};
ghost use Rattle.rules.specs.Bounds.{flags};
ghost use Rattle.rules.specs.Logic.{formula_of};
ghost use Rattle.rules.specs.Matches.{value};
ghost use Rattle.matches.specs.Matching.{same};
ghost use Rattle.reliances.specs.Unification.{through, replaced, flexible, unify, unify_all, unify_formulas};

use matches::look_up;
use rules::{Atom, Term, is_flagged};

pub(crate) fn is_flexible(t: Term, rigid: &[bool]) -> bool
    ensures { result ≡ flexible (flags rigid.now) t }
{
    matches!(t, Term::Null(n) if !is_flagged(rigid, n))
}

fn is_same(x: Term, s: Term) -> bool
    ensures { result ≡ same x s }
{
    x == s
}

// Puts `t` in the place of `s` in every slot.
pub(crate) fn replace(sigma: &mut [Term], s: Term, t: Term)
    ensures { sigma.new ≡ map (replaced s t) sigma.old }
{
    for x in sigma.iter_mut() {
        if is_same(*x, s) {
            *x = t;
        }
    }
}

// What the slots give a term whose variables begin at slot `from`. (All slots and a place, and no slice from there on, since
// the definitions speak of all slots.)
pub(crate) fn slot_value(t: Term, sigma: &[Term], from: usize) -> Term
    requires { from ≤ 24 }
    ensures { result ≡ value (through sigma.now from) t }
{
    match t {
        Term::Variable(v) => look_up(sigma, from + v as usize),
        _ => t,
    }
}

fn unify_term(sigma: &mut [Term], rigid: &[bool], s: Term, t: Term) -> Option<()>
    ensures { option_map (λ _. sigma.new) result ≡ unify (flags rigid.now) sigma.old s t }
{
    if s == t {
        return Some(());
    }
    if is_flexible(s, rigid) {
        replace(sigma, s, t);
    } else if is_flexible(t, rigid) {
        replace(sigma, t, s);
    } else {
        return None;
    }
    Some(())
}

fn unify_terms(a: &[Term], b: &[Term], sigma: &mut [Term], rigid: &[bool]) -> Option<()>
    ensures { option_map (λ _. sigma.new) result ≡ unify_all (flags rigid.now) 0 12 a.now b.now sigma.old }
{
    if a.len() != b.len() {
        return None;
    }
    for (s, t) in a.iter().zip(b) {
        unify_term(
            sigma,
            rigid,
            slot_value(*s, sigma, 0),
            slot_value(*t, sigma, 12),
        )?;
    }
    Some(())
}

/// Makes an atom of the first rule and one of the second equal, where that can be: `tau` is then `sigma`, so changed. Where it
/// cannot, what `tau` holds is of no use. (It is lent, and no result: an `Option` of 36 slots is blanked for each pair of atoms
/// that differ.)
pub(crate) fn unify(
    a: &Atom,
    b: &Atom,
    sigma: &[Term; 36],
    rigid: &[bool],
    tau: &mut [Term; 36],
) -> Option<()>
    ensures { option_map (λ _. tau.new) result ≡ unify_formulas (flags rigid.now) 0 12 (formula_of a.now) (formula_of b.now) sigma.now }
{
    if a.predicate != b.predicate {
        return None;
    }
    *tau = *sigma;
    unify_terms(a.args(), b.args(), tau, rigid)
}
