//! Matches, and what stands in the places that a search is lent.
use crate::build::x;
use rules::Term;

/// A match: the rows of the body atoms, what the variables are given, and the rows of the head atoms where it is satisfied.
/// Places that a search is not to write are as before it.
#[derive(Clone, Copy)]
pub struct Seen {
    pub rows: [u16; 6],
    pub values: [Term; 12],
    pub head: Option<[u16; 6]>,
}

/// What stands in the places before a search.
pub const STALE_ROWS: [u16; 6] = [60, 61, 62, 63, 64, 65];

pub fn stale_terms() -> [Term; 12] {
    let mut terms = [Term::Constant(0); 12];
    for (term, number) in terms.iter_mut().zip(300..) {
        *term = x(number);
    }
    terms
}

/// The first places of a stack, and stale rows past them.
fn stack_of(rows: &[u16]) -> [u16; 6] {
    let mut stack = STALE_ROWS;
    for (place, row) in stack.iter_mut().zip(rows) {
        *place = *row;
    }
    stack
}

/// A match that is not satisfied. The variables are given the terms, those from `from` on.
pub fn open(rows: &[u16], from: usize, terms: &[Term]) -> Seen {
    let mut values = stale_terms();
    for (place, term) in values.iter_mut().skip(from).zip(terms) {
        *place = *term;
    }
    Seen {
        rows: stack_of(rows),
        values,
        head: None,
    }
}

/// A match that is satisfied by these rows.
pub fn satisfied(rows: &[u16], from: usize, terms: &[Term], head: &[u16]) -> Seen {
    Seen {
        head: Some(stack_of(head)),
        ..open(rows, from, terms)
    }
}
