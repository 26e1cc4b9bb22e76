//! Rule volumes.
ghost use Rattle.std.specs.Prelude.{◌≡◌, ℕ, ◌+◌, ◌-◌, ◌*◌, ◌≤◌, List, length, Ok, Err, MatchResult, refl};
ghost use Rattle.rules.specs.Logic.{Numbered};
ghost use Rattle.volumes.specs.Layout.{count as count_of, number as number_of, extent as extent_of, rules_end, RuleVolumeSays};
ghost use Rattle.volumes.specs.Reading.{read_rising, read_rule_entries, read_rules};
ghost use Rattle.volumes.specs.Answers.{Checked};
ghost use Rattle.volumes.specs.Text.{numbered_text};
ghost use Rattle.volumes.specs.Volumes.{rules_of, numbered, RulePart, RuleHad, AtomsHad};

use crate::contents::{read_count, volume_fault};
use crate::cursor::Cursor;
use crate::fields::pair_at;
use crate::items::RuleAtoms;
use crate::kind::VolumeKind;
use crate::volume::{Entries, Volume};
use faults::{EntryAt, Fault, VolumeFault};
use rules::Rule;

/// The rules of a rule volume.
#[derive(Clone, Copy)]
pub enum Rules {}

/// A rule volume that is taken up.
pub type RuleVolume<'a> = Volume<'a, Rules>;

/// A rule with its number.
#[derive(Clone, Copy)]
pub struct NumberedRule {
    pub number: u16,
    pub rule: Rule,
}

/// The number of the rule of this index.
fn number(bytes: &[u8], index: usize) -> u16
    requires { 3 + 4 * index + 4 ≤ length bytes.now }
    ensures { result ≡ number_of bytes.now index }
{
    pair_at(bytes, 3 + 4 * index)
}

/// How many bytes the rule of this index has.
fn extent(bytes: &[u8], index: usize) -> usize
    requires { 3 + 4 * index + 4 ≤ length bytes.now }
    ensures value { result ≡ extent_of bytes.now index }
    ensures few { result ≤ 65535 }
{
    pair_at(bytes, 5 + 4 * index) as usize
}

/// The contents of a rule volume, whole.
#[derive(Clone, Copy)]
struct RuleContents<'a> {
    bytes: &'a [u8],
    count: usize,
    ghost counted: { count ≡ count_of bytes.now },
    ghost few: { count ≤ 64 },
    ghost whole: { 3 + 4 * count ≤ length bytes.now },
}

// The loops count indices: chunks of the contents would give an entry's bytes, but its place and its fault need the index.
impl<'a> RuleContents<'a> {
    /// Whether each number is above the one before it.
    fn check_rising(&self) -> Result<(), Fault>
        ensures { result ≡ read_rising self.now.bytes.now 0 (self.now.count - 1) }
    {
        for index in 1..self.count {
            if number(self.bytes, index - 1) >= number(self.bytes, index) {
                return Err(Fault {
                    layer: VolumeFault::NotRising,
                    index: index as u16,
                    place: 3 + 4 * index,
                });
            }
        }
        Ok(())
    }

    // No twin of `facts_end`: where rules end is told by the contents, where facts end by the facts.
    /// Where the first `n` rules end.
    fn rules_end(&self, n: usize) -> usize
        requires { n ≤ self.now.count }
        ensures { result ≡ rules_end self.now.bytes.now n }
    {
        let mut end = 3 + 4 * self.count;
        // A loop, and no sum of a map: its proof did not close.
        for index in 0..n {
            end += extent(self.bytes, index);
        }
        end
    }

    /// Whether each rule stands where it should.
    fn check_bodies(&self) -> Result<(), Fault>
        requires { rules_end self.now.bytes.now self.now.count ≡ length self.now.bytes.now }
        ensures { MatchResult result (λ _. (xs : List Numbered) × (q : ℕ) × (length xs ≡ self.now.count) × (read_rule_entries self.now.bytes.now ≡ Ok (xs, q))) (λ f. read_rule_entries self.now.bytes.now ≡ Err f) }
    {
        let bytes = self.bytes;
        let mut place = 3 + 4 * self.count;
        for index in 0..self.count {
            let end = place + extent(bytes, index);
            let rule = Cursor { bytes, place, end };
            if let Err(fault) = rule.rule() {
                return Err(EntryAt {
                    index: index as u16,
                    fault,
                }
                .into());
            }
            place = end;
        }
        Ok(())
    }
}

impl Entries for Rules {
    type Entry = NumberedRule;

    ghost Thing = { Numbered };

    ghost means = { numbered };

    ghost text = { numbered_text };

    ghost read = { read_rules };

    ghost Says = { RuleVolumeSays };

    ghost shown = { λ _. refl };

    #[tactic(auto, using(crate::proofs::Checking::rules_exact))]
    fn check(bytes: &[u8]) -> Result<usize, Fault> {
        let count = read_count(VolumeKind::Rules, bytes)?;
        let contents = RuleContents { bytes, count };
        contents.check_rising()?;
        let end = contents.rules_end(count);
        if end != bytes.len() {
            return Err(volume_fault(VolumeFault::Ends, end));
        }
        contents.check_bodies()?;
        Ok(count)
    }

    fn entry(volume: &RuleVolume<'_>, index: usize) -> Option<NumberedRule> {
        volume.rule(index)
    }
}

// A public name, as `check_facts` is, for what is written once for each kind.
/// How many rules the bytes hold as a rule volume, or their first fault.
pub fn check_rules(bytes: &[u8]) -> Result<usize, Fault>
    ensures { Checked (RuleVolumeSays bytes.now) result }
{
    Rules::check(bytes)
}

impl<'a> Volume<'a, Rules> {
    /// The bytes of the rule of an index, or none where there are not so many.
    fn part(&self, index: usize) -> Option<Cursor<'a>>
        ensures { RulePart self.now.bytes.now index result }
    {
        if index >= self.count {
            return None;
        }
        let contents = RuleContents {
            bytes: self.bytes,
            count: self.count,
        };
        Some(Cursor {
            bytes: self.bytes,
            place: contents.rules_end(index),
            end: contents.rules_end(index + 1),
        })
    }

    /// The rule of an index in the contents with its number, or none where there are not so many.
    pub fn rule(&self, index: usize) -> Option<NumberedRule>
        ensures { RuleHad (rules_of self.now.bytes.now) index result }
    {
        let part = self.part(index)?;
        Some(NumberedRule {
            number: number(self.bytes, index),
            rule: part.rule().unwrap(),
        })
    }

    /// The reader of the atoms of the rule of an index; one that is at its end where there are not so many.
    pub fn atoms(&self, index: usize) -> RuleAtoms<'a>
        ensures { AtomsHad self.now.bytes.now index result }
    {
        match self.part(index) {
            Some(part) => part.rule_atoms().unwrap(),
            None => RuleAtoms::none(self.bytes),
        }
    }
}
