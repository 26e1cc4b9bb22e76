//! The rows that are searched, as a table and as a fact volume.
use rules::{Atom, Term};
use std::alloc::{AllocError, Global};

/// How many rows the table has: as many as a source may have.
const ROWS: u16 = 4096;

/// How many of them the volume has: as many as a fact volume may have.
const VOLUME_ROWS: u16 = 2048;

fn pair(predicate: u16, first: Term, second: Term) -> Atom {
    Atom {
        predicate,
        arity: 2,
        terms: [first, second, Term::Constant(0), Term::Constant(0)],
    }
}

/// A row of the table: a quarter of the rows each are raw frames with their cameras, the frames they gave, flats that are not
/// known yet, and the master flats of cameras.
fn row(index: u16) -> Atom {
    let k = index / 4;
    let frame = k.wrapping_mul(7) % 1024;
    match index % 4 {
        0 => pair(1, Term::Constant(k), Term::Constant(k % 32)),
        1 => pair(2, Term::Constant(k), Term::Constant(frame)),
        2 => pair(3, Term::Constant(frame), Term::Null(k)),
        _ => pair(4, Term::Null(k), Term::Constant(k % 32)),
    }
}

/// All rows.
pub fn make_rows(heap: Global) -> Result<Vec<Atom>, AllocError> {
    let mut rows = Vec::new(heap);
    for index in 0..ROWS {
        rows.push(row(index))?;
    }
    Ok(rows)
}

fn push_number(bytes: &mut Vec<u8>, n: u16) -> Result<(), AllocError> {
    bytes.extend_from_slice(&n.to_be_bytes())
}

fn push_term(bytes: &mut Vec<u8>, term: Term) -> Result<(), AllocError> {
    let (kind, number) = match term {
        Term::Constant(n) => (0, n),
        Term::Variable(n) => (1, n),
        Term::Null(n) => (2, n),
    };
    bytes.push(kind)?;
    push_number(bytes, number)
}

fn push_pair(bytes: &mut Vec<u8>, atom: &Atom) -> Result<(), AllocError> {
    push_number(bytes, atom.predicate)?;
    bytes.push(2)?;
    push_term(bytes, atom.terms[0])?;
    push_term(bytes, atom.terms[1])
}

/// The first rows in the layout of a fact volume: nine bytes each.
pub fn make_volume(heap: Global) -> Result<Vec<u8>, AllocError> {
    let mut bytes = Vec::new(heap);
    bytes.push(2)?;
    push_number(&mut bytes, VOLUME_ROWS)?;
    for index in 0..VOLUME_ROWS {
        push_number(&mut bytes, 3 + 2 * VOLUME_ROWS + 9 * index)?;
    }
    for index in 0..VOLUME_ROWS {
        push_pair(&mut bytes, &row(index))?;
    }
    Ok(bytes)
}
