// The nodes of the search for a restraint, and the end of a way, where alternatives that come too early are refined away.
ghost use Rattle.std.specs.Prelude.{◌≡◌, ◌<◌, ◌≤◌, [], ◌++◌, true, map, take, length, Decides};
ghost use Rattle.rules.specs.Bounds.{body_of, flags};
ghost use Rattle.reliances.specs.Unification.{part};
ghost use Rattle.rules.specs.Rules.{meaning};
ghost use Rattle.matches.specs.Lists.{look, formulas, under_atom};
ghost use Rattle.reliances.specs.declared.sheet.Kind.TheVariants.{Restraint};
ghost use Rattle.reliances.specs.RestraintSearch.{shift_by, shift_atom, laid_later, SomeSpared, EarlyFound, Stuck, OtherIs, Open, IsFound};
ghost use Rattle.reliances.specs.Searching.{Deserted, OnWay, Seen, Searched};

use crate::early::{Early, Looseness, find_early};
use crate::lists::{Reading, Under, push_each};
use crate::search::{Question, Relation, Sight, Test, Way, counted, pick};
use crate::substitution::{first_slots, has_rigid, second_slots, wide_slots};
use crate::unifier::{replace, slot_value};
use crate::{Kind, Sheet};
use arrayvec::ArrayVec;
use matches::{Trigger, atom_under, sized, stands_in};
use rules::{Atom, Term};
use std::array;

/// The first rule restrains the second.
pub(crate) struct Restrains;

impl Relation for Restrains {
    const KIND: Kind = Kind::Restraint;

    ghost KIND = { Restraint };

    fn look(asked: &Question<Restrains>, way: &Way, all: &[Atom], sheet: &mut Sheet) -> Sight {
        let kept = Way {
            old: all,
            rest: &[],
            ..*way
        };
        if settle(asked, &kept, sheet) {
            return Sight::Found;
        }
        if way.rest.is_empty() {
            return Sight::Shut;
        }
        let list = later(asked, way.sigma, all);
        let facts = &list[..list.len() - way.rest.len()];
        if is_shut(asked, way, facts) {
            return Sight::Shut;
        }
        let test = Freedom {
            asked,
            sigma: way.sigma,
        };
        Sight::Next(pick(&test, &list, way.rest.len()))
    }

    fn is_hopeless(asked: &Question<Restrains>, way: &Way) -> bool {
        let list = later(asked, way.sigma, way.old);
        is_shut(asked, way, &list)
    }
}

// The test of facts for a question: the first rule can be applied, and no alternative comes too early.
#[derive(Clone, Copy)]
struct Freedom<'a> {
    asked: &'a Question<'a, Restrains>,
    sigma: &'a [Term; 36],
}

impl Test for Freedom<'_> {
    fn is_free(&self, facts: &[Atom]) -> bool {
        let first = Trigger {
            rule: self.asked.first,
            values: first_slots(self.sigma),
            facts,
        };
        let second = Trigger {
            rule: self.asked.second,
            values: second_slots(self.sigma),
            facts,
        };
        !has_rigid(facts, &self.asked.rigid[..12])
            && !first.is_satisfied()
            && !second.has_alternative()
    }
}

// An existential variable v is read by an alternative from slot 24 + v.
fn shift_term(t: Term, rigid: &[bool; 36]) -> Term
    ensures { result ≡ shift_by rigid.now t }
{
    match t {
        Term::Variable(v) if rigid.get(12 + v as usize) == Some(&true) => Term::Variable(12 + v),
        _ => t,
    }
}

fn shift_terms(terms: &[Term; 4], rigid: &[bool; 36]) -> [Term; 4]
    ensures { result ≡ map (shift_by rigid.now) terms.now }
{
    terms.map(|t| shift_term(t, rigid))
}

/// Atoms are read as an alternative reads them, by the flags of the slots.
#[derive(Clone, Copy)]
pub(crate) struct Shifted<'a>(pub &'a [bool; 36]);

impl Reading for Shifted<'_> {
    ghost gives = { λ r a. shift_atom r.0.now a };

    fn read(&self, a: &Atom) -> Atom {
        Atom {
            terms: shift_terms(&a.terms, self.0),
            ..*a
        }
    }
}

// Atoms are read as an alternative reads them, and their variables as its values say.
#[derive(Clone, Copy)]
struct Other<'a> {
    shifted: Shifted<'a>,
    values: &'a [Term],
}

impl Reading for Other<'_> {
    ghost gives = { λ r a. under_atom (look r.values.now) (shift_atom r.shifted.0.now a) };

    fn read(&self, a: &Atom) -> Atom {
        atom_under(&self.shifted.read(a), self.values)
    }
}

// The facts of a node: what the second rule is applied on and gives, and what is there besides.
// Some atom is new where it is called, so few are left old; a type that kept it would be made there only to be taken apart.
fn later(asked: &Question<Restrains>, sigma: &[Term; 36], old: &[Atom]) -> ArrayVec<Atom, 19>
    requires { length old.now ≤ 3 }
    ensures { result.items ≡ laid_later asked.now.first.now asked.now.second.now sigma.now old.now }
{
    let second = second_slots(sigma);
    let mut all = ArrayVec::new();
    push_each(asked.second.body(), &Under(second), &mut all);
    push_each(asked.second.head(), &Under(second), &mut all);
    push_each(asked.first.body(), &Under(first_slots(sigma)), &mut all);
    push_each(old, &Under(wide_slots(sigma)), &mut all);
    all
}

// Whether some null that the application gives stands in none of the atoms.
fn some_spared(rigid: &[bool; 36], list: &[Atom]) -> bool
    ensures { Decides result (SomeSpared rigid.now (formulas list.now)) }
{
    (12..36).any(|r| rigid[r] && !stands_in(Term::Null(r as u16), list))
}

// Whether nothing rules the restraint out yet but alternatives that come too early. The list is the facts of the node.
fn is_open(asked: &Question<Restrains>, way: &Way, list: &[Atom]) -> bool
    requires { list.now ≡ laid_later asked.now.first.now asked.now.second.now way.now.sigma.now way.now.old.now }
    ensures { Decides result (Open (meaning asked.now.first.now) (meaning asked.now.second.now) way.now.sigma.now (formulas way.now.old.now)) }
{
    let before = &list[..asked.second.body().len()];
    let second = Trigger {
        rule: asked.second,
        values: second_slots(way.sigma),
        facts: before,
    };
    let first = Trigger {
        rule: asked.first,
        values: first_slots(way.sigma),
        facts: list,
    };
    if has_rigid(before, &asked.rigid)
        || second.is_satisfied()
        || has_rigid(list, &asked.rigid[..12])
        || first.is_satisfied()
    {
        return false;
    }
    let mut other: ArrayVec<Atom, 4> = ArrayVec::new();
    let read = Other {
        shifted: Shifted(&asked.rigid),
        values: wide_slots(way.sigma),
    };
    push_each(asked.second.head(), &read, &mut other);
    some_spared(&asked.rigid, &other)
}

// An alternative that comes too early at a node, or none where there is none. `facts` are the node's, and first among them
// those of the second rule's body.
fn find_here(asked: &Question<Restrains>, sigma: &[Term; 36], facts: &[Atom]) -> Option<Early>
    requires { length (body_of asked.now.second.now.parts) ≤ length facts.now }
    ensures { let B = asked.now.second.now in EarlyFound (meaning B) (flags asked.now.rigid) (formulas (take (length (body_of B.parts)) facts.now)) (look (part sigma.now 12)) (formulas facts.now) result }
{
    let second = Trigger {
        rule: asked.second,
        values: second_slots(sigma),
        facts,
    };
    let looseness = Looseness {
        before: &facts[..asked.second.body().len()],
        rigid: &asked.rigid,
    };
    find_early(second, looseness)
}

// Whether no facts and matches follow to the node, as far as is told by its facts.
fn is_shut(asked: &Question<Restrains>, way: &Way, list: &[Atom]) -> bool
    requires node { let q = asked.now in OnWay Restraint q.first.now q.second.now q.rigid way.now.sigma.now way.now.old.now way.now.rest.now }
    requires list { list.now ≡ laid_later asked.now.first.now asked.now.second.now way.now.sigma.now way.now.old.now }
    ensures { let q = asked.now in result ≡ true → Deserted Restraint q.first.now q.second.now q.rigid way.now.sigma.now way.now.old.now }
{
    !is_open(asked, way, list) || is_stuck(asked, way.sigma, list)
}

// Whether an alternative comes too early in which no null is loose: then none of them all can be kept from coming too early.
fn is_stuck(asked: &Question<Restrains>, sigma: &[Term; 36], facts: &[Atom]) -> bool
    requires { length (body_of asked.now.second.now.parts) ≤ length facts.now }
    ensures { let B = asked.now.second.now in result ≡ true → Stuck (meaning B) (flags asked.now.rigid) (formulas (take (length (body_of B.parts)) facts.now)) (look (part sigma.now 12)) (formulas facts.now) }
{
    match find_here(asked, sigma, facts) {
        Some(early) => early.nulls.is_empty(),
        None => false,
    }
}

// What the alternative gives the variables of the second rule.
fn other_values(sigma: &[Term; 36], rigid: &[bool; 36]) -> [Term; 12]
    ensures { OtherIs rigid.now sigma.now result }
{
    array::from_fn(|v| slot_value(shift_term(Term::Variable(v as u16), rigid), sigma, 12))
}

// The sheet of a way on which nothing remains.
fn found_sheet(asked: &Question<Restrains>, way: &Way) -> Sheet
    requires { length way.now.old.now ≤ 3 }
    ensures { IsFound asked.now.first.now asked.now.second.now asked.now.rigid way.now.sigma.now way.now.old.now result }
{
    let mut before: ArrayVec<Atom, 6> = ArrayVec::new();
    let mut extra: ArrayVec<Atom, 9> = ArrayVec::new();
    push_each(
        asked.second.body(),
        &Under(second_slots(way.sigma)),
        &mut before,
    );
    push_each(
        asked.first.body(),
        &Under(first_slots(way.sigma)),
        &mut extra,
    );
    push_each(way.old, &Under(wide_slots(way.sigma)), &mut extra);
    let (first, first_len) = counted(&before);
    let (second, second_len) = counted(&extra);
    Sheet {
        first,
        first_len,
        second,
        second_len,
        first_rule: *first_slots(way.sigma),
        second_rule: *second_slots(way.sigma),
        alternative: other_values(way.sigma, &asked.rigid),
    }
}

// The end of a way. An alternative that comes too early is no alternative where one of its loose nulls is the one that it
// spares: so each of them is tried as that null.
fn settle(asked: &Question<Restrains>, way: &Way, sheet: &mut Sheet) -> bool
    requires few { length way.now.old.now ≤ 3 }
    requires node { OnWay Restraint asked.now.first.now asked.now.second.now asked.now.rigid way.now.sigma.now way.now.old.now [] }
    ensures { Searched result Restraint asked.now.first.now asked.now.second.now asked.now.rigid way.now.sigma.now way.now.old.now sheet.old sheet.new }
{
    let list = later(asked, way.sigma, way.old);
    if !is_open(asked, way, &list) {
        return false;
    }
    let Some(Early { spared, nulls }) = find_here(asked, way.sigma, &list) else {
        sized(asked.first);
        sized(asked.second);
        *sheet = found_sheet(asked, way);
        return true;
    };
    for null in nulls.as_slice() {
        let mut tau = *way.sigma;
        replace(&mut tau, Term::Null(*null), Term::Null(12 + spared));
        let refined = Way {
            sigma: &tau,
            ..*way
        };
        if settle(asked, &refined, sheet) {
            return true;
        }
    }
    false
}
