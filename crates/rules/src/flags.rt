// Which variables stand in atoms, told by one pass over their terms.
ghost use Rattle.std.specs.Prelude.{◌≡◌, ◌<◌, ◌&&◌, ℕ, map, not, length};
ghost use Rattle.std.specs.List.{count_by, range_with_len};
ghost use Rattle.rules.specs.Logic.{formula_of};
ghost use Rattle.rules.specs.Bounds.{some, is_variable?, has?, flags, FlagsAre};
ghost use Rattle.rules.specs.Flags.{Sets};

use crate::{Atom, Term, is_flagged};
use std::array;

/// The flags of the variables that stand in the atoms.
pub(crate) fn flags_of(atoms: &[Atom]) -> [bool; 12]
    ensures long { length result ≡ 12 }
    ensures each { (v : ℕ) → v < 12 → flags result v ≡ some (has? v) (map formula_of atoms.now) }
{
    let mut set = [false; 12];
    for a in atoms {
        set_all(a.args(), &mut set);
    }
    set
}

/// Sets the flags of the variables among the terms.
pub(crate) fn set_all(terms: &[Term], set: &mut [bool])
    ensures { Sets (λ v. some (is_variable? v) terms.now) set.old set.new }
{
    for t in terms {
        set_one(*t, set);
    }
}

fn set_one(t: Term, set: &mut [bool])
    ensures { Sets (λ v. is_variable? v t) set.old set.new }
{
    if let Term::Variable(v) = t {
        let i = v as usize;
        if i < set.len() {
            set[i] = true;
        }
    }
}

/// The flags that are set in `xs` and not in `ys`.
pub(crate) fn only_in(xs: &[bool; 12], ys: &[bool; 12]) -> [bool; 12]
    ensures { FlagsAre result (λ v. flags xs.now v && not (flags ys.now v)) }
{
    array::from_fn(|v| is_flagged(xs, v as u16) && !is_flagged(ys, v as u16))
}

/// How many flags are set.
pub(crate) fn count_flags(xs: &[bool; 12]) -> usize
    ensures { result ≡ count_by (flags xs.now) (range_with_len 0 12) }
{
    (0..12).filter(|v| is_flagged(xs, *v)).count()
}
