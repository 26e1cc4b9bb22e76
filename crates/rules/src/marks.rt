// Marks of the predicates in a list of atoms. Two lists that have no mark in common have no predicate in common, which is
// told at once and holds for most pairs of rules.
ghost use Rattle.std.specs.Prelude.{◌≡◌, List, map};
ghost use Rattle.rules.specs.Logic.{Formula, formula_of};
ghost use Rattle.rules.specs.Bounds.{MarksAre, near?};

use crate::Atom;

/// Bit i is set where the remainder of some predicate by 64 is i.
pub(crate) fn marks_of(atoms: &[Atom]) -> u64
    ensures { MarksAre (map formula_of atoms.now) result }
{
    let mut marks = 0;
    for a in atoms {
        marks |= 1 << (a.predicate % 64);
    }
    marks
}

/// Whether the marks of two lists have one in common.
pub(crate) fn have_common(one: u64, other: u64) -> bool
    ensures { (F G : List Formula) → MarksAre F one → MarksAre G other → result ≡ near? F G }
{
    one & other != 0
}
