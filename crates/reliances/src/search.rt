// The search behind a question: each atom of the second rule that is gone through is left old, or unified with a head atom
// of the first rule.
ghost use Rattle.std.specs.Prelude.{◌≡◌, ◌+◌, ◌<◌, ◌≤◌, true, [], ◌++◌, length, take, drop};
ghost use Rattle.arrayvec.specs.ArrayVec.{array_vec_len};
ghost use Rattle.rules.specs.Bounds.{FlagsAre};
ghost use Rattle.rules.specs.Rules.{meaning};
ghost use Rattle.reliances.specs.declared.sheet.Kind.{Kind};
ghost use Rattle.reliances.specs.Searching.{gone, rigid_for, Deserted, OnWay, Seen, Searched};

use crate::lists::push_all;
use crate::substitution::rigid_slots;
use crate::unifier::unify;
use crate::{Kind, Sheet};
use arrayvec::ArrayVec;
use rules::{Atom, Rule, Term};
use std::marker::PhantomData;

/// What is seen at a node of a search.
#[derive(Clone, Copy)]
pub(crate) enum Sight {
    /// The sheet shows the relation.
    Found,
    /// No facts and matches follow.
    Shut,
    /// The atom to go on with, by its place among those that remain.
    Next(usize),
}

/// A relation between two rules.
pub(crate) trait Relation {
    const KIND: Kind;

    ghost KIND: { Kind };

    /// Looks at a node where some atom is new, and takes those that remain for old: most often that shows the relation, if
    /// anything does. `all` is what was left old and what remains.
    fn look(asked: &Question<Self>, way: &Way, all: &[Atom], sheet: &mut Sheet) -> Sight
        requires node { let q = asked.now in OnWay KIND q.first.now q.second.now q.rigid way.now.sigma.now way.now.old.now way.now.rest.now }
        requires all { all.now ≡ way.now.old.now ++ way.now.rest.now }
        requires new { length all.now < asked.now.count }
        ensures { let q = asked.now in Seen result KIND q.first.now q.second.now q.rigid way.now.sigma.now way.now.old.now way.now.rest.now sheet.old sheet.new };

    /// Whether no facts and matches follow the search at all, as is told at its start by what no atom changes.
    fn is_hopeless(asked: &Question<Self>, way: &Way) -> bool
        requires node { let q = asked.now in OnWay KIND q.first.now q.second.now q.rigid way.now.sigma.now way.now.old.now way.now.rest.now }
        requires start { way.now.old.now ≡ [] }
        ensures { let q = asked.now in result ≡ true → Deserted KIND q.first.now q.second.now q.rigid way.now.sigma.now way.now.old.now };
}

/// A test of facts. (A trait of its own, and no step of a relation: that would lead back to the step that calls it.)
pub(crate) trait Test {
    /// Whether nothing rules the relation out on the facts. It is a hint of which atom to go on with, so nothing is promised.
    fn is_free(&self, facts: &[Atom]) -> bool;
}

/// Whether the relation holds between two rules, with the slots that keep their nulls while that is searched.
#[derive(Drop)]
pub(crate) struct Question<'a, R: Relation> {
    pub first: &'a Rule,
    pub second: &'a Rule,
    /// How many atoms of the second rule are gone through.
    pub count: usize,
    pub rigid: [bool; 36],
    of: PhantomData<R>,
    ghost all: { count ≡ length (gone R.KIND (meaning second.now)) },
    ghost flags: { FlagsAre rigid (rigid_for R.KIND (meaning first.now) (meaning second.now)) },
}

impl<'a, R: Relation> Question<'a, R> {
    pub(crate) fn new(first: &'a Rule, second: &'a Rule, count: usize) -> Self
        requires { count ≡ length (gone R.KIND (meaning second.now)) }
        ensures { (result.first.now ≡ first.now) × (result.second.now ≡ second.now) }
    {
        Question {
            first,
            second,
            count,
            rigid: rigid_slots(R::KIND, first, second),
            of: PhantomData,
        }
    }
}

/// A way into a search: what the slots hold, the atoms that were left old, and those that remain.
// It does not hold the question, which stays while the ways change. That it leads to a node is a `requires`: a ghost field
// holds no fact that has several proofs, as which atom is which has.
#[derive(Clone, Copy)]
pub(crate) struct Way<'a> {
    pub sigma: &'a [Term; 36],
    pub old: &'a [Atom],
    pub rest: &'a [Atom],
}

/// Goes on from the node that a way leads to.
#[cycle(searching)]
pub(crate) fn search<R: Relation>(asked: &Question<R>, way: &Way, sheet: &mut Sheet) -> bool
    requires { let q = asked.now in OnWay R.KIND q.first.now q.second.now q.rigid way.now.sigma.now way.now.old.now way.now.rest.now }
    ensures { let q = asked.now in Searched result R.KIND q.first.now q.second.now q.rigid way.now.sigma.now way.now.old.now sheet.old sheet.new }
{
    match see(asked, way, sheet) {
        Sight::Found => true,
        Sight::Shut => false,
        Sight::Next(i) => branch(asked, way, i, sheet),
    }
}

// Goes on with an atom that remains: it is new, or left old. (A function of its own, since the lists that it needs would be
// made at every node, and most nodes end the search or are shut.)
#[cycle(searching)]
fn branch<R: Relation>(asked: &Question<R>, way: &Way, i: usize, sheet: &mut Sheet) -> bool
    requires node { let q = asked.now in OnWay R.KIND q.first.now q.second.now q.rigid way.now.sigma.now way.now.old.now way.now.rest.now }
    requires next { i < length way.now.rest.now }
    ensures { let q = asked.now in Searched result R.KIND q.first.now q.second.now q.rigid way.now.sigma.now way.now.old.now sheet.old sheet.new }
{
    let next = way.rest[i];
    let mut others = ArrayVec::new();
    let rest = without(way.rest, i, &mut others);
    let mut sigma = *way.sigma;
    for head in asked.first.head() {
        if let Some(()) = unify(head, &next, way.sigma, &asked.rigid, &mut sigma) {
            let joined = Way {
                sigma: &sigma,
                rest,
                ..*way
            };
            if search(asked, &joined, sheet) {
                return true;
            }
        }
    }
    let old = together(way.old, &[next]);
    let kept = Way {
        old: &old,
        rest,
        ..*way
    };
    search(asked, &kept, sheet)
}

// What is seen at the node. Where no atom is new, there is nothing to look at yet.
fn see<R: Relation>(asked: &Question<R>, way: &Way, sheet: &mut Sheet) -> Sight
    requires { let q = asked.now in OnWay R.KIND q.first.now q.second.now q.rigid way.now.sigma.now way.now.old.now way.now.rest.now }
    ensures { let q = asked.now in Seen result R.KIND q.first.now q.second.now q.rigid way.now.sigma.now way.now.old.now way.now.rest.now sheet.old sheet.new }
{
    if way.old.len() + way.rest.len() < asked.count {
        let all = together(way.old, way.rest);
        return R::look(asked, way, &all, sheet);
    }
    if way.rest.is_empty() {
        return Sight::Shut;
    }
    Sight::Next(0)
}

// The atoms but the one at the place: what comes after the first as it stands, and otherwise a copy.
fn without<'a>(atoms: &'a [Atom], i: usize, copy: &'a mut ArrayVec<Atom, 6>) -> &'a [Atom]
    requires { (i < length atoms.now) × (length atoms.now ≤ 6) × (copy.old.items ≡ []) }
    ensures { result.now ≡ take i atoms.now ++ drop (i + 1) atoms.now }
{
    if i == 0 {
        return &atoms[1..];
    }
    push_all(&atoms[..i], copy);
    push_all(&atoms[i + 1..], copy);
    copy.as_slice()
}

// The atoms of two lists.
fn together(first: &[Atom], second: &[Atom]) -> ArrayVec<Atom, 6>
    requires { length first.now + length second.now ≤ 6 }
    ensures { result.items ≡ first.now ++ second.now }
{
    let mut both = ArrayVec::new();
    push_all(first, &mut both);
    push_all(second, &mut both);
    both
}

/// The place, among the last facts, of one to go on with: the last of a few without which nothing would rule the relation out.
/// So once these few are left old, the node is shut.
pub(crate) fn pick<T: Test>(test: &T, facts: &[Atom], remain: usize) -> usize
    requires { (1 ≤ remain) × (remain ≤ length facts.now) }
    ensures { result < remain }
{
    let from = facts.len() - remain;
    for i in 1..remain {
        if !test.is_free(&facts[..from + i]) {
            return i - 1;
        }
    }
    remain - 1
}

/// The atoms in an array, and how many they are.
pub(crate) fn counted<const N: usize>(atoms: &[Atom]) -> ([Atom; N], u8)
    requires fits { length atoms.now ≤ N }
    requires counts { length atoms.now ≤ 255 }
    ensures count { result.1 ≡ length atoms.now }
    ensures atoms { take result.1 result.0 ≡ atoms.now }
{
    let mut array = [Atom::BLANK; N];
    array[..atoms.len()].copy_from_slice(atoms);
    (array, atoms.len() as u8)
}
