//! Answers in plain fields.
ghost use Rattle.std.specs.Prelude.{◌≡◌, ◌≤◌, cond, length};
ghost use Rattle.rules.specs.Logic.{formula_of};
ghost use Rattle.sources_c.specs.Plain.{atom_of};
ghost use Rattle.sources_c.specs.Calls.{Tells, FactsFrom, PlainFact};

use crate::plain::{Own, PlainAtom, Told, plain_atom};
use faults::SourceFault;
use rules::Atom;
use sources::FactSource;
use std::array;

/// What a refusal is told as.
pub(crate) fn told(answer: Result<(), SourceFault>) -> Told
    ensures { Tells answer result }
{
    match answer {
        Ok(()) => Told {
            number: 0,
            place: 0,
        },
        Err(fault) => Told {
            number: fault.number(),
            place: fault.place(),
        },
    }
}

/// 1 for yes, and 0 for no.
pub(crate) fn said(yes: bool) -> u8
    ensures { result ≡ cond yes 1 0 }
{
    if yes { 1 } else { 0 }
}

/// The fact of an index in plain fields, or a blank atom where there are not so many.
fn fact<S: FactSource>(source: &S, index: usize) -> PlainAtom
    ensures { PlainFact (S.facts source.now) index result }
{
    match source.fact(index) {
        Ok(fact) => plain_atom(fact),
        Err(_) => plain_atom(Atom::BLANK),
    }
}

/// The facts of the source from an index on, four at most.
pub(crate) fn facts_from<S: FactSource>(source: &S, start: usize) -> Own
    requires { start ≤ length (S.facts source.now) }
    ensures { FactsFrom (S.facts source.now) start result }
{
    Own {
        atoms: array::from_fn(|place| fact(source, start + place)),
        count: (source.count() - start).min(4) as u8,
    }
}
