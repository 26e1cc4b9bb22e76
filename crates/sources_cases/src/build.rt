//! Atoms, rules and fact volumes, written shortly.
use rules::{Atom, Rule, RuleParts, Term};
use std::alloc::{AllocError, Global};
use std::test::Fail;

/// A constant, a null and a variable.
pub fn c(number: u16) -> Term {
    Term::Constant(number)
}

pub fn n(number: u16) -> Term {
    Term::Null(number)
}

pub fn x(number: u16) -> Term {
    Term::Variable(number)
}

/// An atom of these terms. Past them stand others, which do not count.
pub fn atom(predicate: u16, terms: &[Term]) -> Atom {
    let mut all = [Term::Variable(77); 4];
    for (place, term) in all.iter_mut().zip(terms) {
        *place = *term;
    }
    Atom {
        predicate,
        arity: u8::try_from(terms.len()).unwrap_or(u8::MAX),
        terms: all,
    }
}

fn put(places: &mut [Atom], atoms: &[Atom]) -> u8 {
    for (place, atom) in places.iter_mut().zip(atoms) {
        *place = *atom;
    }
    u8::try_from(atoms.len()).unwrap_or(u8::MAX)
}

pub fn rule(body: &[Atom], head: &[Atom]) -> Result<Rule, Fail> {
    let mut parts = RuleParts::BLANK;
    parts.bodies = put(&mut parts.body, body);
    parts.heads = put(&mut parts.head, head);
    Ok(Rule::new(parts).ok_or("no rule")?)
}

fn push_number(bytes: &mut Vec<u8>, number: u16) -> Result<(), AllocError> {
    bytes.extend_from_slice(&number.to_be_bytes())
}

fn push_term(bytes: &mut Vec<u8>, term: Term) -> Result<(), AllocError> {
    let (kind, number) = match term {
        Term::Constant(number) => (0, number),
        Term::Variable(number) => (1, number),
        Term::Null(number) => (2, number),
    };
    bytes.push(kind)?;
    push_number(bytes, number)
}

fn push_atom(bytes: &mut Vec<u8>, atom: &Atom) -> Result<(), AllocError> {
    push_number(bytes, atom.predicate)?;
    bytes.push(atom.arity)?;
    for term in atom.args() {
        push_term(bytes, *term)?;
    }
    Ok(())
}

/// The volume of the facts, in this order.
pub fn fact_volume(heap: Global, facts: &[Atom]) -> Result<Vec<u8>, Fail> {
    let mut bytes = Vec::new(heap);
    bytes.push(2)?;
    push_number(&mut bytes, u16::try_from(facts.len())?)?;
    let mut place = facts.len().wrapping_mul(2).wrapping_add(3);
    for fact in facts {
        push_number(&mut bytes, u16::try_from(place)?)?;
        place = place
            .wrapping_add(3)
            .wrapping_add(fact.args().len().wrapping_mul(3));
    }
    for fact in facts {
        push_atom(&mut bytes, fact)?;
    }
    Ok(bytes)
}

/// So many rows p1(0), p1(1) and so on.
pub fn many_rows(heap: Global, count: u16) -> Result<Vec<Atom>, AllocError> {
    let mut rows = Vec::new(heap);
    for number in 0..count {
        rows.push(atom(1, &[c(number)]))?;
    }
    Ok(rows)
}
