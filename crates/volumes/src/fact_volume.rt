//! Fact volumes.
ghost use Rattle.std.specs.Prelude.{◌≡◌, ◌+◌, ◌*◌, ◌≤◌, List, length, IfOk, Ok, Err, MatchResult, refl};
ghost use Rattle.rules.specs.Logic.{Formula, formula_of};
ghost use Rattle.rules.specs.Text.{formula_text};
ghost use Rattle.volumes.specs.Layout.{ContentsWhole, count as count_of, fact_place as place_of, span, FactVolumeSays};
ghost use Rattle.volumes.specs.Moves.{Past};
ghost use Rattle.volumes.specs.Reading.{read_fact_entry, read_fact_entries, read_facts};
ghost use Rattle.volumes.specs.Answers.{Checked};
ghost use Rattle.volumes.specs.Volumes.{facts_of, FactHad};

use crate::contents::{read_count, volume_fault};
use crate::cursor::Cursor;
use crate::fields::pair_at;
use crate::kind::VolumeKind;
use crate::volume::{Entries, Volume};
use faults::{EntryAt, Fault, VolumeFault};
use rules::Atom;

/// The facts of a fact volume.
#[derive(Clone, Copy)]
pub enum Facts {}

/// A fact volume that is taken up.
pub type FactVolume<'a> = Volume<'a, Facts>;

/// Where the fact of this index begins, as the contents say.
fn fact_place(bytes: &[u8], index: usize) -> usize
    requires { 3 + 2 * index + 2 ≤ length bytes.now }
    ensures { result ≡ place_of bytes.now index }
{
    pair_at(bytes, 3 + 2 * index) as usize
}

impl<'a> Cursor<'a> {
    /// The fact of this index in the contents, where the one before it ends here.
    fn fact(&mut self, index: u16) -> Result<Atom, Fault>
        requires { (self.old.end ≡ length self.old.bytes.now) × (3 + 2 * index + 2 ≤ length self.old.bytes.now) }
        ensures value { MatchResult result (λ a. read_fact_entry self.old.bytes.now index self.old.place ≡ Ok (formula_of a)) (λ f. read_fact_entry self.old.bytes.now index self.old.place ≡ Err f) }
        ensures moved { IfOk result (λ a. Past self.old (span (formula_of a)) self.new) }
    {
        if fact_place(self.bytes, index as usize) != self.place {
            return Err(Fault {
                layer: VolumeFault::Misplaced,
                index,
                place: 3 + 2 * index as usize,
            });
        }
        let atom = self.atom(VolumeKind::Facts).map_err(|fault| EntryAt {
            index,
            fault: fault.into(),
        })?;
        Ok(atom)
    }
}

// No twin of `rules_end`, which the contents tell.
/// Where the last fact ends, if each stands as the contents say.
fn facts_end(bytes: &[u8], count: usize) -> Result<usize, Fault>
    requires { (ContentsWhole VolumeKind.Facts bytes.now) × (count ≡ count_of bytes.now) }
    ensures { MatchResult result (λ q. (xs : List Formula) × (length xs ≡ count) × (read_fact_entries bytes.now ≡ Ok (xs, q))) (λ f. read_fact_entries bytes.now ≡ Err f) }
{
    let mut cursor = Cursor {
        bytes,
        place: 3 + 2 * count,
        end: bytes.len(),
    };
    // By index: chunks of the contents would give an entry's bytes, but its place and its fault need the index.
    for index in 0..count {
        cursor.fact(index as u16)?;
    }
    Ok(cursor.place)
}

impl Entries for Facts {
    type Entry = Atom;

    ghost Thing = { Formula };

    ghost means = { formula_of };

    ghost text = { formula_text };

    ghost read = { read_facts };

    ghost Says = { FactVolumeSays };

    ghost shown = { λ _. refl };

    #[tactic(auto, using(crate::proofs::Checking::facts_exact))]
    fn check(bytes: &[u8]) -> Result<usize, Fault> {
        let count = read_count(VolumeKind::Facts, bytes)?;
        let end = facts_end(bytes, count)?;
        if end != bytes.len() {
            return Err(volume_fault(VolumeFault::Ends, end));
        }
        Ok(count)
    }

    fn entry(volume: &FactVolume<'_>, index: usize) -> Option<Atom> {
        volume.fact(index)
    }
}

// A public name, as `check_rules` is, for what is written once for each kind.
/// How many facts the bytes hold as a fact volume, or their first fault.
pub fn check_facts(bytes: &[u8]) -> Result<usize, Fault>
    ensures { Checked (FactVolumeSays bytes.now) result }
{
    Facts::check(bytes)
}

impl<'a> Volume<'a, Facts> {
    /// The fact of an index in the contents, or none where there are not so many. Nothing else of the volume is read.
    pub fn fact(&self, index: usize) -> Option<Atom>
        ensures { FactHad (facts_of self.now.bytes.now) index result }
    {
        if index >= self.count {
            return None;
        }
        let mut cursor = Cursor {
            bytes: self.bytes,
            place: fact_place(self.bytes, index),
            end: self.bytes.len(),
        };
        Some(cursor.atom(VolumeKind::Facts).unwrap())
    }
}
