//! The facts of an addition's own.
ghost use Rattle.std.specs.Prelude.{◌≡◌, ◌≤◌, true, take, length};
ghost use Rattle.rules.specs.Logic.{Each};
ghost use Rattle.rules.specs.Bounds.{every};
ghost use Rattle.matches.specs.Lists.{FactAtom};
ghost use Rattle.matches.specs.Matching.{fact_atom?};

use rules::{Atom, first};

/// Up to four facts: the first `count` of the atoms.
#[derive(Clone, Copy)]
pub(crate) struct OwnFacts {
    pub(crate) atoms: [Atom; 4],
    pub(crate) count: u8,
    ghost facts: { every fact_atom? (take count atoms) ≡ true },
}

impl OwnFacts {
    pub(crate) const NONE: OwnFacts = OwnFacts {
        atoms: [Atom::BLANK; 4],
        count: 0,
    };

    /// These facts.
    pub(crate) fn of(facts: &[Atom]) -> OwnFacts
        requires few { length facts.now ≤ 4 }
        requires facts { Each FactAtom facts.now }
        ensures { take result.count result.atoms ≡ facts.now }
    {
        let mut atoms = [Atom::BLANK; 4];
        atoms[..facts.len()].copy_from_slice(facts);
        OwnFacts {
            atoms,
            count: facts.len() as u8,
        }
    }

    /// The facts.
    pub(crate) fn atoms(&self) -> &[Atom]
        ensures { result.now ≡ take self.now.count self.now.atoms }
    {
        first(&self.atoms, self.count)
    }
}
