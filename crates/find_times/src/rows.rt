//! The rows that are searched.
use rules::{Atom, Term};
use std::alloc::{AllocError, Global};

/// What the last row leads to.
const END: u16 = 65535;

/// A chain: each row leads from its index to the next one, and the last row to the end.
pub(crate) fn make_rows(size: u16, heap: Global) -> Result<Vec<Atom>, AllocError> {
    let mut rows = Vec::new(heap);
    for index in 0..size {
        let next = if index == size - 1 { END } else { index + 1 };
        rows.push(Atom {
            predicate: 1,
            arity: 2,
            terms: [
                Term::Constant(index),
                Term::Constant(next),
                Term::Constant(0),
                Term::Constant(0),
            ],
        })?;
    }
    Ok(rows)
}
