//! The rule reader.
ghost use Rattle.std.specs.Prelude.{◌≡◌, ◌+◌, ◌<◌, ◌≤◌, [], ◌∷◌, ◌++◌, length, take, Ok, Err, MatchResult};
ghost use Rattle.rules.specs.Rules.{meaning};
ghost use Rattle.volumes.specs.Parts.{ReadInto, Begun};
ghost use Rattle.volumes.specs.Reading.{read_rule};

use crate::cursor::Cursor;
use crate::items::{Item, RuleAtoms};
use faults::{AtomFault, EntryFault};
use rules::{Atom, Rule, RuleParts};

/// Puts an atom behind the first `n`, and counts it: the parts are plain arrays with counts.
fn put(atoms: &mut [Atom], n: &mut u8, atom: Atom)
    requires { (n.old < length atoms.old) × (n.old < 255) }
    ensures atoms { take n.new atoms.new ≡ take n.old atoms.old ++ atom ∷ [] }
    ensures count { n.new ≡ n.old + 1 }
{
    atoms[*n as usize] = atom;
    *n += 1;
}

/// Reads a rule's atoms into the parts that the caller lends. After a fault they hold the atoms before it.
fn read_atoms(atoms: &mut RuleAtoms<'_>, into: &mut RuleParts) -> Result<(), AtomFault>
    requires { (atoms.old.bodies ≤ 6) × ((atoms.old.heads ≤ 4) × ((into.old.bodies ≡ 0) × (into.old.heads ≡ 0))) }
    ensures { ReadInto atoms.old result into.new atoms.new }
{
    while let Some(item) = atoms.next_item()? {
        match item {
            Item::Body(x) => put(&mut into.body, &mut into.bodies, x.atom),
            Item::Head(x) => put(&mut into.head, &mut into.heads, x.atom),
        }
    }
    Ok(())
}

impl<'a> Cursor<'a> {
    /// The reader of the atoms of the rule that begins here and has the rest of the part.
    pub(crate) fn rule_atoms(mut self) -> Result<RuleAtoms<'a>, EntryFault>
        ensures { MatchResult result (λ a. Begun self.entry a) (λ f. read_rule self.entry.bytes.now self.entry.end self.entry.place ≡ Err f) }
    {
        let start = self.place;
        let bodies = self.byte()?;
        let heads = self.byte()?;
        if !(1..=6).contains(&bodies) {
            return Err(EntryFault::Count { place: start });
        }
        if !(1..=4).contains(&heads) {
            return Err(EntryFault::Count { place: start + 1 });
        }
        Ok(RuleAtoms {
            cursor: self,
            bodies,
            heads,
        })
    }

    /// The rule that begins here and has the rest of the part.
    pub(crate) fn rule(self) -> Result<Rule, EntryFault>
        ensures { MatchResult result (λ x. read_rule self.entry.bytes.now self.entry.end self.entry.place ≡ Ok (meaning x)) (λ f. read_rule self.entry.bytes.now self.entry.end self.entry.place ≡ Err f) }
    {
        let mut atoms = self.rule_atoms()?;
        let mut parts = RuleParts::BLANK;
        read_atoms(&mut atoms, &mut parts)?;
        let place = atoms.cursor.place;
        if place != self.end {
            return Err(EntryFault::Left { place });
        }
        Rule::new(parts).ok_or(EntryFault::Existentials { place: self.place })
    }
}
