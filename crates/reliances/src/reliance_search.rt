// The nodes of the search for a positive reliance.
ghost use Rattle.std.specs.Prelude.{◌≡◌, ◌<◌, ◌≤◌, ◌++◌, map, length, Decides};
ghost use Rattle.rules.specs.Rules.{meaning};
ghost use Rattle.rules.specs.Bounds.{head_of, flags};
ghost use Rattle.matches.specs.Lists.{look, formulas, under_atom};
ghost use Rattle.reliances.specs.declared.sheet.Kind.TheVariants.{Positive};
ghost use Rattle.reliances.specs.Unification.{part};
ghost use Rattle.reliances.specs.PositiveSearch.{Free, IsFound, laid_facts};
ghost use Rattle.reliances.specs.Searching.{OnWay, Seen};

use crate::lists::{Under, push_each};
use crate::search::{Question, Relation, Sight, Test, Way, counted, pick};
use crate::substitution::{first_slots, has_rigid, second_slots};
use crate::{Kind, Sheet};
use arrayvec::ArrayVec;
use matches::{Trigger, sized};
use rules::{Atom, Term};

/// The second rule positively relies on the first.
pub(crate) struct Relies;

impl Relation for Relies {
    const KIND: Kind = Kind::Positive;

    ghost KIND = { Positive };

    fn look(asked: &Question<Relies>, way: &Way, all: &[Atom], sheet: &mut Sheet) -> Sight {
        let list = laid(asked, way.sigma, all);
        let relying = Trigger {
            rule: asked.second,
            values: second_slots(way.sigma),
            facts: &list,
        };
        // All of its body atoms are facts by now, be they old or new.
        if relying.is_satisfied() {
            return Sight::Shut;
        }
        let facts = &list[..asked.first.body().len() + all.len()];
        if is_free(asked, way.sigma, facts) {
            sized(asked.first);
            sized(asked.second);
            *sheet = found_sheet(way.sigma, facts);
            return Sight::Found;
        }
        let kept = &facts[..asked.first.body().len() + way.old.len()];
        if way.rest.is_empty() || !is_free(asked, way.sigma, kept) {
            return Sight::Shut;
        }
        let test = Freedom {
            asked,
            sigma: way.sigma,
        };
        Sight::Next(pick(&test, facts, way.rest.len()))
    }

    fn is_hopeless(asked: &Question<Relies>, way: &Way) -> bool {
        let list = laid(asked, way.sigma, way.old);
        !is_free(asked, way.sigma, &list[..asked.first.body().len()])
    }
}

// The test of facts for a question.
#[derive(Clone, Copy)]
struct Freedom<'a> {
    asked: &'a Question<'a, Relies>,
    sigma: &'a [Term; 36],
}

impl Test for Freedom<'_> {
    fn is_free(&self, facts: &[Atom]) -> bool {
        is_free(self.asked, self.sigma, facts)
    }
}

// The facts of a node, and what the first rule's application gives.
fn laid(asked: &Question<Relies>, sigma: &[Term; 36], all: &[Atom]) -> ArrayVec<Atom, 15>
    requires { length all.now ≤ 5 }
    ensures { result.items ≡ laid_facts asked.now.first.now sigma.now all.now ++ map (under_atom (look (part sigma.now 0))) (head_of asked.now.first.now.parts) }
{
    let first = Under(first_slots(sigma));
    let mut list = ArrayVec::new();
    push_each(asked.first.body(), &first, &mut list);
    push_each(all, &Under(second_slots(sigma)), &mut list);
    push_each(asked.first.head(), &first, &mut list);
    list
}

// Whether the first rule can be applied on the facts, and the second rule's match is none on them.
fn is_free(asked: &Question<Relies>, sigma: &[Term; 36], facts: &[Atom]) -> bool
    ensures { Decides result (Free (meaning asked.now.first.now) (meaning asked.now.second.now) (flags asked.now.rigid) sigma.now (formulas facts.now)) }
{
    let applied = Trigger {
        rule: asked.first,
        values: first_slots(sigma),
        facts,
    };
    let relying = Trigger {
        rule: asked.second,
        values: second_slots(sigma),
        facts,
    };
    if has_rigid(facts, &asked.rigid) || applied.is_satisfied() {
        return false;
    }
    !relying.is_match()
}

// The sheet of a node where nothing rules the reliance out.
fn found_sheet(sigma: &[Term; 36], facts: &[Atom]) -> Sheet
    requires { length facts.now ≤ 11 }
    ensures { IsFound sigma.now facts.now result }
{
    let (first, first_len) = counted(facts);
    Sheet {
        first,
        first_len,
        first_rule: *first_slots(sigma),
        second_rule: *second_slots(sigma),
        ..Sheet::BLANK
    }
}
