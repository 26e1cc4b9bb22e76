//! The check of rows.
ghost use Rattle.std.specs.Prelude.{◌≡◌, Decides};
ghost use Rattle.matches.specs.Lists.{FactAtom};
ghost use Rattle.sources.specs.Rows.{RowsSay};

use crate::MOST;
use faults::SourceFault;
use matches::are_facts;
use rules::Atom;

fn is_fact(row: &Atom) -> bool
    ensures { Decides result (FactAtom row.now) }
{
    are_facts(&[*row])
}

/// Whether the rows can be taken up: at most 4,096, each a fact. Else their first fault, 15 before 16.
pub fn check_rows(rows: &[Atom]) -> Result<(), SourceFault>
    ensures { RowsSay rows.now result }
{
    if rows.len() > MOST {
        return Err(SourceFault::TooManyRows { rows: rows.len() });
    }
    for (row, atom) in rows.iter().enumerate() {
        if !is_fact(atom) {
            return Err(SourceFault::WrongRow { row });
        }
    }
    Ok(())
}
