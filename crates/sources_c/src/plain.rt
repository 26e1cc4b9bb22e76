//! Terms, atoms and what variables are given, in plain fields.
ghost use Rattle.std.specs.Prelude.{◌≡◌, map};
ghost use Rattle.sources_c.specs.Plain.{term_of, plain_of, atom_of, given_of};

use rules::{Atom, Term};

/// A term: kind 0 is a constant, 2 a null, and any other a variable.
#[repr(C)]
#[derive(Clone, Copy)]
pub struct PlainTerm {
    pub kind: u16,
    pub number: u16,
}

/// An atom, whatever its fields hold.
#[repr(C)]
#[derive(Clone, Copy)]
pub struct PlainAtom {
    pub predicate: u16,
    pub arity: u8,
    pub terms: [PlainTerm; 4],
}

/// What the variables 0 to 11 are given.
#[repr(C)]
#[derive(Clone, Copy)]
pub struct Given {
    pub terms: [PlainTerm; 12],
}

/// What a search lends: the rows of the body's atoms, and what the variables are given.
#[repr(C)]
#[derive(Clone, Copy)]
pub struct Lent {
    pub stack: [u16; 6],
    pub found: Given,
}

/// The own facts of an addition: the first `count` of the atoms.
#[repr(C)]
#[derive(Clone, Copy)]
pub struct Own {
    pub atoms: [PlainAtom; 4],
    pub count: u8,
}

/// The number of a refusal with its place; 0 and 0 for none.
#[repr(C)]
#[derive(Clone, Copy)]
pub struct Told {
    pub number: u8,
    pub place: usize,
}

/// The term in plain fields.
pub(crate) fn plain_term(term: Term) -> PlainTerm
    ensures same { result ≡ plain_of term }
    ensures back { term_of result ≡ term }
{
    match term {
        Term::Constant(number) => PlainTerm { kind: 0, number },
        Term::Variable(number) => PlainTerm { kind: 1, number },
        Term::Null(number) => PlainTerm { kind: 2, number },
    }
}

/// The term that the fields mean.
pub(crate) fn term(plain: PlainTerm) -> Term
    ensures { result ≡ term_of plain }
{
    match plain.kind {
        0 => Term::Constant(plain.number),
        2 => Term::Null(plain.number),
        _ => Term::Variable(plain.number),
    }
}

/// The atom that the fields mean.
pub(crate) fn atom(plain: PlainAtom) -> Atom
    ensures { result ≡ atom_of plain }
{
    Atom {
        predicate: plain.predicate,
        arity: plain.arity,
        terms: plain.terms.map(term),
    }
}

/// The atom in plain fields.
pub(crate) fn plain_atom(atom: Atom) -> PlainAtom
    ensures { atom_of result ≡ atom }
{
    PlainAtom {
        predicate: atom.predicate,
        arity: atom.arity,
        terms: atom.terms.map(plain_term),
    }
}

/// The terms that the fields mean.
pub(crate) fn terms(plain: &[PlainTerm; 12]) -> [Term; 12]
    ensures { result ≡ map term_of plain.now }
{
    plain.map(term)
}

/// The terms in plain fields.
pub(crate) fn plain_given(terms: &[Term; 12]) -> Given
    ensures { given_of result ≡ terms.now }
{
    Given {
        terms: terms.map(plain_term),
    }
}
