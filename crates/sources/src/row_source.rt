//! A row table is a source.
ghost use Rattle.matches.specs.Lists.{formulas};
ghost use Rattle.sources.specs.Few.{few_atoms};

use crate::row_table::RowTable;
use crate::source::FactSource;
use faults::SourceFault;
use rules::Atom;

impl<'a> FactSource for RowTable<'a> {
    ghost facts = { λ t. formulas t.rows.now };

    ghost few = { λ t. few_atoms t.rows.now t.few t.facts };

    fn count(&self) -> usize {
        self.rows.len()
    }

    fn fact(&self, index: usize) -> Result<Atom, SourceFault> {
        if let Some(row) = self.rows.get(index) {
            Ok(*row)
        } else {
            Err(SourceFault::NoFact { index })
        }
    }
}
