//! Rules of an archive: which flats its frames have.
use crate::build::{Written, admit, atom, c, volume, x};
use rules::Atom;
use shelf::Shelf;
use std::alloc::Global;
use std::test::Fail;

pub fn frame() -> Atom {
    atom(1, &[x(0)])
}

pub fn master() -> Atom {
    atom(2, &[x(0), x(1)])
}

pub fn flat() -> Atom {
    atom(3, &[x(0), x(1)])
}

/// `master(e,f) → flat(e,f)`
pub fn admit_master(heap: Global, shelf: &mut Shelf, number: u16) -> Result<(), Fail> {
    admit(heap, shelf, number, &[master()], &[flat()])
}

/// `frame(e) → flat(e,f)`
pub fn admit_frame(heap: Global, shelf: &mut Shelf, number: u16) -> Result<(), Fail> {
    admit(heap, shelf, number, &[frame()], &[flat()])
}

/// `flat(e,f) → flat(e,9)`
pub fn admit_ninth(heap: Global, shelf: &mut Shelf, number: u16) -> Result<(), Fail> {
    admit(heap, shelf, number, &[flat()], &[atom(3, &[x(0), c(9)])])
}

/// `raw(e,s) → taken(e,s)`
pub fn admit_raw(heap: Global, shelf: &mut Shelf, number: u16) -> Result<(), Fail> {
    let body = [atom(6, &[x(0), x(1)])];
    admit(heap, shelf, number, &body, &[atom(7, &[x(0), x(1)])])
}

/// `taken(e,s) → flat(e,f)`
pub fn admit_taken(heap: Global, shelf: &mut Shelf, number: u16) -> Result<(), Fail> {
    let body = [atom(7, &[x(0), x(1)])];
    admit(heap, shelf, number, &body, &[atom(3, &[x(0), x(2)])])
}

/// `p(x,y), p(y,z) → p(x,z)`
pub fn admit_transitive(heap: Global, shelf: &mut Shelf, number: u16) -> Result<(), Fail> {
    let body = [atom(5, &[x(0), x(1)]), atom(5, &[x(1), x(2)])];
    admit(heap, shelf, number, &body, &[atom(5, &[x(0), x(2)])])
}

/// One of a chain: `given(e) → next(e,e), own(e,f)`, where next of each is own of the following one. So each restrains the
/// following one, and no other.
pub fn admit_link(heap: Global, shelf: &mut Shelf, number: u16, own: u16) -> Result<(), Fail> {
    let next = atom(own.saturating_add(1), &[x(0), x(0)]);
    let own = atom(own, &[x(0), x(1)]);
    admit(heap, shelf, number, &[atom(9, &[x(0)])], &[next, own])
}

/// 3: `master(e,f) → flat(e,f)`, and 8: `frame(e) → flat(e,f)`.
pub fn two_rules(heap: Global) -> Result<Vec<u8>, Fail> {
    volume(
        heap,
        &[
            Written {
                number: 3,
                body: &[master()],
                head: &[flat()],
            },
            Written {
                number: 8,
                body: &[frame()],
                head: &[flat()],
            },
        ],
    )
}
