//! Rules, and shelves that hold them, written shortly.
use rules::{Atom, Term};
use shelf::Shelf;
use std::alloc::{AllocError, Global};
use std::test::Fail;
use volumes::RuleVolume;

/// A constant and a variable.
pub fn c(number: u16) -> Term {
    Term::Constant(number)
}

pub fn x(number: u16) -> Term {
    Term::Variable(number)
}

/// An atom of these terms.
pub fn atom(predicate: u16, terms: &[Term]) -> Atom {
    let mut atom = Atom {
        predicate,
        arity: u8::try_from(terms.len()).unwrap_or(u8::MAX),
        terms: [Term::Constant(0); 4],
    };
    for (place, term) in atom.terms.iter_mut().zip(terms) {
        *place = *term;
    }
    atom
}

fn push_number(bytes: &mut Vec<u8>, number: u16) -> Result<(), AllocError> {
    bytes.extend_from_slice(&number.to_be_bytes())
}

fn push_term(bytes: &mut Vec<u8>, term: Term) -> Result<(), AllocError> {
    let (kind, number) = match term {
        Term::Constant(number) => (0, number),
        Term::Variable(number) => (1, number),
        Term::Null(number) => (2, number),
    };
    bytes.push(kind)?;
    push_number(bytes, number)
}

fn push_atom(bytes: &mut Vec<u8>, atom: &Atom) -> Result<(), AllocError> {
    push_number(bytes, atom.predicate)?;
    bytes.push(atom.arity)?;
    for term in atom.args() {
        push_term(bytes, *term)?;
    }
    Ok(())
}

/// The rule's bytes.
fn rule_bytes(heap: Global, body: &[Atom], head: &[Atom]) -> Result<Vec<u8>, Fail> {
    let mut bytes = Vec::new(heap);
    bytes.push(u8::try_from(body.len())?)?;
    bytes.push(u8::try_from(head.len())?)?;
    for atom in body {
        push_atom(&mut bytes, atom)?;
    }
    for atom in head {
        push_atom(&mut bytes, atom)?;
    }
    Ok(bytes)
}

/// A rule to be, under its number.
#[derive(Clone, Copy)]
pub struct Written<'a> {
    pub number: u16,
    pub body: &'a [Atom],
    pub head: &'a [Atom],
}

/// The volume of these rules.
pub fn volume(heap: Global, rules: &[Written<'_>]) -> Result<Vec<u8>, Fail> {
    let mut bytes = Vec::new(heap);
    let mut bodies = Vec::new(heap);
    bytes.push(1)?;
    push_number(&mut bytes, u16::try_from(rules.len())?)?;
    for rule in rules {
        let body = rule_bytes(heap, rule.body, rule.head)?;
        push_number(&mut bytes, rule.number)?;
        push_number(&mut bytes, u16::try_from(body.len())?)?;
        bodies.extend_from_slice(&body)?;
    }
    bytes.extend_from_slice(&bodies)?;
    Ok(bytes)
}

/// The volume of this rule alone.
pub fn rule_volume(
    heap: Global,
    number: u16,
    body: &[Atom],
    head: &[Atom],
) -> Result<Vec<u8>, Fail> {
    volume(heap, &[Written { number, body, head }])
}

/// Admits the rule under the number.
pub fn admit(
    heap: Global,
    shelf: &mut Shelf,
    number: u16,
    body: &[Atom],
    head: &[Atom],
) -> Result<(), Fail> {
    let bytes = rule_volume(heap, number, body, head)?;
    if shelf.admit(&RuleVolume::take_up(&bytes), 0).is_err() {
        return Err(Fail::new("not admitted"));
    }
    Ok(())
}
