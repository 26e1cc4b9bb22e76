//! What is asked about two rules that a shelf holds.
ghost use Rattle.shelf.specs.Held.{rules_on, both_under};
ghost use Rattle.shelf.specs.Calls.{AskSays, VerifySays};

use crate::shelf::Shelf;
use faults::ShelfFault;
use reliances::{Kind, Sheet};

impl Shelf {
    /// Whether the relation holds between the rules of two numbers, which may be the same. If so, the sheet shows it. If not, no
    /// facts and matches at all meet its definition, and the sheet is as it was. Refused: 13 where no rule is held under one of
    /// the numbers, the first looked at first.
    pub fn ask(
        &self,
        kind: Kind,
        first: u16,
        second: u16,
        sheet: &mut Sheet,
    ) -> Result<bool, ShelfFault>
        ensures { AskSays kind (both_under (rules_on self.now) first second) result sheet.old sheet.new }
    {
        let (first, second) = self.both(first, second)?;
        Ok(reliances::ask(kind, first, second, sheet))
    }

    /// Whether the sheet meets the definition of the relation, for the rules of two numbers, which may be the same. A list too
    /// long, an atom that is no fact, and an entry that is read but holds a variable are a no. Refused as by `ask`.
    pub fn verify(
        &self,
        kind: Kind,
        first: u16,
        second: u16,
        sheet: &Sheet,
    ) -> Result<bool, ShelfFault>
        ensures { VerifySays kind sheet.now (both_under (rules_on self.now) first second) result }
    {
        let (first, second) = self.both(first, second)?;
        Ok(reliances::verify(kind, first, second, sheet))
    }
}
