// Alternatives that come too early, and the nulls in them that can become one which the application gives.
ghost use Rattle.std.specs.Prelude.{◌≡◌, ◌+◌, ◌≤◌, ◌<◌, [], ◌∷◌, ◌++◌, List, map, None, true, length, Decides};
ghost use Rattle.arrayvec.specs.ArrayVec.{array_vec_len};
ghost use Rattle.rules.specs.declared.Term.{Term};
ghost use Rattle.rules.specs.declared.Term.TheVariants.{Null};
ghost use Rattle.rules.specs.Bounds.{flags};
ghost use Rattle.rules.specs.Logic.{In, terms_of, formula_of};
ghost use Rattle.rules.specs.Matches.{under};
ghost use Rattle.rules.specs.Rules.{meaning};
ghost use Rattle.matches.specs.Lists.{look, formulas};
ghost use Rattle.reliances.specs.RestraintSearch.{Loose, AreLoose, EarlyFound};

use crate::lists::{Under, push_each};
use arrayvec::ArrayVec;
use matches::{Trigger, stands_in};
use rules::{Atom, Term, is_flagged};

/// An alternative that comes too early: the variable whose null it spares, and the loose nulls in it.
#[derive(Drop)]
pub(crate) struct Early {
    pub spared: u16,
    pub nulls: ArrayVec<u16, 16>,
}

/// The facts that the second rule is applied on, and the flags of rigid slots: they tell which nulls are loose.
#[derive(Clone, Copy)]
pub(crate) struct Looseness<'a> {
    pub before: &'a [Atom],
    pub rigid: &'a [bool],
}

impl Looseness<'_> {
    // The flags first: most often they tell.
    fn is_loose(self, null: u16) -> bool
        ensures { Decides result (Loose (flags self.entry.rigid.now) (formulas self.entry.before.now) null) }
    {
        !is_flagged(self.rigid, null) && !stands_in(Term::Null(null), self.before)
    }

    // Adds the null, where it is loose and not there yet.
    fn add_null(self, null: u16, nulls: &mut ArrayVec<u16, 16>)
        requires { array_vec_len nulls.old < 16 }
        ensures few { length nulls.new.items ≤ length nulls.old.items + 1 }
        ensures loose { (ts : List Term) → AreLoose (flags self.entry.rigid.now) (formulas self.entry.before.now) ts nulls.old.items → AreLoose (flags self.entry.rigid.now) (formulas self.entry.before.now) (ts ++ (Null null ∷ [])) nulls.new.items }
    {
        if self.is_loose(null) && !is_in(null, nulls.as_slice()) {
            nulls.push(null);
        }
    }

    // Adds the loose nulls of one more atom.
    fn add(self, a: Atom, nulls: &mut ArrayVec<u16, 16>)
        requires { array_vec_len nulls.old + 4 ≤ 16 }
        ensures few { length nulls.new.items ≤ length nulls.old.items + 4 }
        ensures loose { (ts : List Term) → AreLoose (flags self.entry.rigid.now) (formulas self.entry.before.now) ts nulls.old.items → AreLoose (flags self.entry.rigid.now) (formulas self.entry.before.now) (ts ++ (formula_of a).terms) nulls.new.items }
    {
        for t in a.args() {
            if let Term::Null(r) = *t {
                self.add_null(r, nulls);
            }
        }
    }

    // The loose nulls in the atoms.
    fn of(self, atoms: &[Atom]) -> ArrayVec<u16, 16>
        requires { length atoms.now ≤ 4 }
        ensures { AreLoose (flags self.entry.rigid.now) (formulas self.entry.before.now) (terms_of (formulas atoms.now)) result.items }
    {
        let mut nulls = ArrayVec::new();
        for a in atoms {
            self.add(*a, &mut nulls);
        }
        nulls
    }
}

fn is_in(n: u16, numbers: &[u16]) -> bool
    ensures { Decides result (In n numbers.now) }
{
    numbers.contains(&n)
}

// Whether so few nulls are fewer than those of the best so far.
fn is_fewer(count: usize, best: &Option<Early>) -> bool
    ensures { best.now ≡ None → result ≡ true }
{
    match best {
        Some(early) => count < early.nulls.len(),
        None => true,
    }
}

/// An alternative on the facts, or none where there is none at all. Of the first ones that spare each null it is the one
/// with the fewest loose nulls: each of these may have to be tried.
pub(crate) fn find_early(trigger: Trigger, looseness: Looseness) -> Option<Early>
    ensures { let t = trigger.entry in let l = looseness.entry in EarlyFound (meaning t.rule.now) (flags l.rigid.now) (formulas l.before.now) (look t.values.now) (formulas t.facts.now) result }
{
    let mut best = None;
    // A loop, and no find_map: its proof did not close, since std has no lemma on what that finds.
    for spared in 0..12 {
        if let Some(values) = trigger.find_alternative(spared) {
            let nulls = in_head(trigger, &values, looseness);
            if is_fewer(nulls.len(), &best) {
                best = Some(Early { spared, nulls });
            }
        }
    }
    best
}

// The loose nulls in the head by the values.
fn in_head(trigger: Trigger, values: &[Term; 12], looseness: Looseness) -> ArrayVec<u16, 16>
    ensures { let l = looseness.entry in AreLoose (flags l.rigid.now) (formulas l.before.now) (terms_of (map (under (look values.now)) (meaning trigger.entry.rule.now).head)) result.items }
{
    let mut given: ArrayVec<Atom, 4> = ArrayVec::new();
    push_each(trigger.rule.head(), &Under(values), &mut given);
    looseness.of(&given)
}
