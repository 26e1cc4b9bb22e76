//! The atom reader.
ghost use Rattle.std.specs.Prelude.{◌≡◌, ◌+◌, ◌*◌, ◌≤◌, length, take, IfOk, OnOk, Ok, Err, MatchResult};
ghost use Rattle.rules.specs.Logic.{formula_of};
ghost use Rattle.volumes.specs.Moves.{Past};
ghost use Rattle.volumes.specs.Reading.{read_terms, read_atom};

use crate::cursor::Cursor;
use crate::kind::VolumeKind;
use faults::{AtomFault, TermFault};
use rules::{Atom, Term};

impl<'a> Cursor<'a> {
    /// The next terms, in the first places of an array.
    fn terms(&mut self, kind: VolumeKind, arity: u8) -> Result<[Term; 4], TermFault>
        requires { arity ≤ 4 }
        ensures value { MatchResult result (λ ts. read_terms kind self.old.bytes.now self.old.end self.old.place arity ≡ Ok (take arity ts, self.old.place + 3 * arity)) (λ f. read_terms kind self.old.bytes.now self.old.end self.old.place arity ≡ Err f) }
        ensures moved { OnOk result (Past self.old (3 * arity) self.new) }
    {
        // An atom keeps its terms in such an array.
        let mut terms = [Term::Constant(0); 4];
        for term in &mut terms[..arity as usize] {
            *term = self.term(kind)?;
        }
        Ok(terms)
    }

    /// The next atom.
    pub(crate) fn atom(&mut self, kind: VolumeKind) -> Result<Atom, AtomFault>
        ensures value { MatchResult result (λ a. read_atom kind self.old.bytes.now self.old.end self.old.place ≡ Ok (formula_of a)) (λ f. read_atom kind self.old.bytes.now self.old.end self.old.place ≡ Err f) }
        ensures moved { IfOk result (λ a. Past self.old (3 + 3 * a.arity) self.new) }
        ensures formed { IfOk result (λ a. (1 ≤ a.arity) × (a.arity ≤ 4) × (length (formula_of a).terms ≡ a.arity)) }
    {
        let predicate = self.pair()?;
        let place = self.place;
        let arity = self.byte()?;
        if !(1..=4).contains(&arity) {
            return Err(AtomFault::Arity { place });
        }
        let terms = self.terms(kind, arity)?;
        Ok(Atom {
            predicate,
            arity,
            terms,
        })
    }
}
