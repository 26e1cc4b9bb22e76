//! Rows as a source.
ghost use Rattle.std.specs.Prelude.{◌≡◌, ◌≤◌, true, length};
ghost use Rattle.rules.specs.Bounds.{every};
ghost use Rattle.matches.specs.Matching.{fact_atom?};
ghost use Rattle.sources.specs.Rows.{RowsTaken};

use crate::rows::check_rows;
use crate::source::FactSource;
use rules::Atom;

/// Rows that are taken up. Those that fail the check are taken up as no rows.
#[derive(Clone, Copy)]
pub struct RowTable<'a> {
    pub(crate) rows: &'a [Atom],
    ghost few: { length rows.now ≤ 4096 },
    ghost facts: { every fact_atom? rows.now ≡ true },
}

impl<'a> RowTable<'a> {
    /// The table of the rows; one of no rows where they fail the check.
    pub fn take_up(rows: &'a [Atom]) -> RowTable<'a>
        ensures { RowsTaken rows.now (⟦<RowTable<'a> as FactSource>⟧.facts result) }
    {
        let Ok(()) = check_rows(rows) else {
            return RowTable { rows: &[] };
        };
        RowTable { rows }
    }
}
