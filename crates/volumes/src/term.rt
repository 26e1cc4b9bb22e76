//! The term reader.
ghost use Rattle.std.specs.Prelude.{◌≡◌, OnOk};
ghost use Rattle.volumes.specs.Reading.{read_term};
ghost use Rattle.volumes.specs.Moves.{Past};

use crate::cursor::Cursor;
use crate::kind::{TermKind, VolumeKind};
use faults::TermFault;
use rules::Term;

impl<'a> Cursor<'a> {
    /// The next term.
    pub(crate) fn term(&mut self, kind: VolumeKind) -> Result<Term, TermFault>
        ensures value { result ≡ read_term kind self.old.bytes.now self.old.end self.old.place }
        ensures moved { OnOk result (Past self.old 3 self.new) }
    {
        let place = self.place;
        let Some(term) = kind.term_kind(self.byte()?) else {
            return Err(TermFault::Kind { place });
        };
        let number = self.pair()?;
        // A match on the kind: each kind is made into another term.
        match term {
            TermKind::Constant => Ok(Term::Constant(number)),
            TermKind::Variable if number > 11 => Err(TermFault::Number { place: place + 1 }),
            TermKind::Variable => Ok(Term::Variable(number)),
            TermKind::Null => Ok(Term::Null(number)),
        }
    }
}
