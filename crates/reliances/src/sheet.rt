ghost use Rattle.std.specs.Prelude.{◌≡◌, take, MatchOption};
ghost use Rattle.reliances.specs.Sheets.{Listed, first_list, second_list};

use matches::are_facts;
use rules::{Atom, Term};

/// Which relation is asked about.
#[derive(Clone, Copy, PartialEq, Eq)]
pub enum Kind {
    /// The second rule positively relies on the first.
    Positive,
    /// The first rule restrains the second.
    Restraint,
}

/// A sheet shows a relation between two rules: facts, and what the variables of the rules are given.
///
/// The first list is the facts before anything is applied. For a restraint the second list is what is there besides
/// when the first rule is applied; for a positive reliance it is empty. Plain: nothing is checked.
#[derive(Clone, Copy)]
pub struct Sheet {
    // Arrays with their counts beside: nothing is allocated, and a sheet is `Copy`, which a list of fixed memory is not.
    pub first: [Atom; 11],
    pub first_len: u8,
    pub second: [Atom; 9],
    pub second_len: u8,
    /// What the variables of the first rule are given.
    pub first_rule: [Term; 12],
    /// What the variables of the second rule are given.
    pub second_rule: [Term; 12],
    /// For a restraint, what the variables of the second rule are given by the alternative.
    pub alternative: [Term; 12],
}

impl Sheet {
    /// A sheet with nothing on it.
    pub const BLANK: Sheet = Sheet {
        first: [Atom::BLANK; 11],
        first_len: 0,
        second: [Atom::BLANK; 9],
        second_len: 0,
        first_rule: [Term::Constant(0); 12],
        second_rule: [Term::Constant(0); 12],
        alternative: [Term::Constant(0); 12],
    };

    /// The facts before anything is applied, where the first list holds facts.
    pub(crate) fn before(&self) -> Option<&[Atom]>
        ensures { let s = self.now in MatchOption result (¬ Listed 11 s.first_len s.first) (λ l. Listed 11 s.first_len s.first × (l.now ≡ first_list s)) }
    {
        read_facts(&self.first, self.first_len)
    }

    /// What is there besides when the first rule is applied, where the second list holds facts.
    pub(crate) fn besides(&self) -> Option<&[Atom]>
        ensures { let s = self.now in MatchOption result (¬ Listed 9 s.second_len s.second) (λ l. Listed 9 s.second_len s.second × (l.now ≡ second_list s)) }
    {
        read_facts(&self.second, self.second_len)
    }
}

/// The first `n` of the atoms, where there are so many and each is a fact.
fn read_facts<const N: usize>(atoms: &[Atom; N], n: u8) -> Option<&[Atom]>
    ensures { MatchOption result (¬ Listed N n atoms.now) (λ l. Listed N n atoms.now × (l.now ≡ take n atoms.now)) }
{
    let facts = atoms.get(..n as usize)?;
    if are_facts(facts) { Some(facts) } else { None }
}
