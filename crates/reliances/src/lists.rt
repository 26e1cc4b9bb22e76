// Short lists of atoms, and the ways to read them.
ghost use Rattle.std.specs.Prelude.{◌≡◌, ◌+◌, ◌≤◌, ◌++◌, map, length};
ghost use Rattle.arrayvec.specs.ArrayVec.{array_vec_len};
ghost use Rattle.rules.specs.declared.Atom.{Atom};
ghost use Rattle.rules.specs.Logic.{formula_of};
ghost use Rattle.rules.specs.Bounds.{some};
ghost use Rattle.matches.specs.Lists.{look, formulas, under_atom};
ghost use Rattle.reliances.specs.Unification.{of?, shares?};

use arrayvec::ArrayVec;
use matches::atom_under;
use rules::{Atom, Term};

/// A way to read atoms, and what it makes of each. (A trait, and no closure: so a clause can name what is made.)
pub(crate) trait Reading {
    ghost gives: { Self → Atom → Atom };

    fn read(&self, a: &Atom) -> Atom
        ensures { result ≡ gives self.now a.now };
}

/// Atoms are read with their variables as the values say.
#[derive(Clone, Copy)]
pub(crate) struct Under<'a>(pub &'a [Term]);

impl Reading for Under<'_> {
    ghost gives = { λ r a. under_atom (look r.0.now) a };

    fn read(&self, a: &Atom) -> Atom {
        atom_under(a, self.0)
    }
}

/// Adds what the reading makes of each atom.
pub(crate) fn push_each<const N: usize, R: Reading>(
    atoms: &[Atom],
    reading: &R,
    into: &mut ArrayVec<Atom, N>,
)
    requires { array_vec_len into.old + length atoms.now ≤ N }
    ensures { into.new.items ≡ into.old.items ++ map (R.gives reading.now) atoms.now }
{
    for a in atoms {
        into.push(reading.read(a));
    }
}

/// Adds the atoms.
pub(crate) fn push_all<const N: usize>(atoms: &[Atom], into: &mut ArrayVec<Atom, N>)
    requires { array_vec_len into.old + length atoms.now ≤ N }
    ensures { into.new.items ≡ into.old.items ++ atoms.now }
{
    // There is room, so it cannot fail.
    into.try_extend_from_slice(atoms).unwrap();
}

/// Whether one of the atoms has the predicate.
pub(crate) fn any_of(atoms: &[Atom], predicate: u16) -> bool
    ensures { result ≡ some (of? predicate) (formulas atoms.now) }
{
    atoms.iter().any(|a| a.predicate == predicate)
}

/// How many of the atoms have the predicate. It is a hint, so nothing is promised.
pub(crate) fn count_of(atoms: &[Atom], predicate: u16) -> usize {
    atoms.iter().filter(|a| a.predicate == predicate).count()
}

/// Whether an atom of `list` has the predicate of one of `heads`.
pub(crate) fn share_predicate(heads: &[Atom], list: &[Atom]) -> bool
    ensures { result ≡ shares? (formulas heads.now) (formulas list.now) }
{
    list.iter().any(|b| any_of(heads, b.predicate))
}
