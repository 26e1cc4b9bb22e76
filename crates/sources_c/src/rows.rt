//! Rows of plain fields, as atoms.
ghost use Rattle.std.specs.Prelude.{◌≡◌, take, min, length};
ghost use Rattle.sources_c.specs.Plain.{rows_of, row_at};

use crate::plain::{PlainAtom, atom};
use rules::Atom;
use std::array;

/// A row table has at most 4,096 rows. Some more are looked at, so that too many are declined.
pub(crate) const ROOM: usize = 4100;

/// The row of an index as an atom; a blank one past the last.
fn row(rows: &[PlainAtom], index: usize) -> Atom
    ensures { result ≡ row_at rows.now index }
{
    match rows.get(index) {
        Some(row) => atom(*row),
        None => Atom::BLANK,
    }
}

/// The rows as atoms, with blank ones after them.
pub(crate) fn table(rows: &[PlainAtom]) -> [Atom; 4100]
    ensures { take (min (length rows.now) 4100) result ≡ rows_of rows.now }
{
    array::from_fn(|index| row(rows, index))
}
