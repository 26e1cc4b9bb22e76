// Whether a sheet meets the definition of the relation that it is to show: a test for each condition, and nothing is
// taken from how the sheet was made.
ghost use Rattle.std.specs.Prelude.{◌≡◌, ◌+◌, ◌≤◌, true, Decides};
ghost use Rattle.arrayvec.specs.ArrayVec.{array_vec_len};
ghost use Rattle.rules.specs.Matches.{Unsatisfied, Applies, result as result_of};
ghost use Rattle.rules.specs.Rules.{meaning};
ghost use Rattle.matches.specs.Lists.{look, formulas};
ghost use Rattle.reliances.specs.Sheets.{ShowsPositive, ShowsRestrained, Shows, Holds};

use crate::lists::{Under, push_all, push_each};
use crate::{Kind, Sheet};
use arrayvec::ArrayVec;
use matches::{Trigger, sized};
use rules::{Atom, Rule, Term};

/// Whether the sheet meets the definition of the relation, for the two rules. If so, the relation holds.
///
/// A list too long, an atom that is no fact, and an entry that is read but holds a variable are a no.
pub fn verify(kind: Kind, first: &Rule, second: &Rule, sheet: &Sheet) -> bool
    ensures shown { Decides result (Shows kind (meaning first.now) (meaning second.now) sheet.now) }
    ensures holds { result ≡ true → Holds kind (meaning first.now) (meaning second.now) }
{
    // A match, and no trait as in the search: it stands once, and the kind is the caller's value.
    match kind {
        Kind::Positive => shows_positive(first, second, sheet),
        Kind::Restraint => shows_restraint(first, second, sheet),
    }
}

// The second rule's match is unsatisfied once the first rule is applied, and was no match before.
fn shows_positive(a: &Rule, b: &Rule, sheet: &Sheet) -> bool
    ensures { Decides result (ShowsPositive (meaning a.now) (meaning b.now) sheet.now) }
{
    let Some(facts) = sheet.before() else {
        return false;
    };
    if sheet.second_len != 0 {
        return false;
    }
    sized(a);
    let first = Trigger {
        rule: a,
        values: &sheet.first_rule,
        facts,
    };
    let second = Trigger {
        rule: b,
        values: &sheet.second_rule,
        facts,
    };
    if !is_applied(first) || second.is_match() {
        return false;
    }
    let mut all = ArrayVec::<Atom, 15>::new();
    push_all(facts, &mut all);
    apply(a, &sheet.first_rule, &mut all);
    is_unsatisfied(Trigger {
        facts: all.as_slice(),
        ..second
    })
}

// The second rule is applied, and what is there besides is added. Then the first rule is applied, which gives an
// alternative where there was none.
fn shows_restraint(a: &Rule, b: &Rule, sheet: &Sheet) -> bool
    ensures { Decides result (ShowsRestrained (meaning a.now) (meaning b.now) sheet.now) }
{
    let Some(facts) = sheet.before() else {
        return false;
    };
    let Some(besides) = sheet.besides() else {
        return false;
    };
    sized(a);
    sized(b);
    let second = Trigger {
        rule: b,
        values: &sheet.second_rule,
        facts,
    };
    if !is_applied(second) {
        return false;
    }
    // One list, to which each step adds what it brings.
    let mut all = ArrayVec::<Atom, 28>::new();
    push_all(facts, &mut all);
    apply(b, &sheet.second_rule, &mut all);
    push_all(besides, &mut all);
    let first = Trigger {
        rule: a,
        values: &sheet.first_rule,
        facts: all.as_slice(),
    };
    let later = Trigger {
        facts: first.facts,
        ..second
    };
    if !is_applied(first) || later.has_alternative() {
        return false;
    }
    apply(a, &sheet.first_rule, &mut all);
    Trigger {
        facts: all.as_slice(),
        ..second
    }
    .is_alternative(&sheet.alternative)
}

fn is_unsatisfied(trigger: Trigger) -> bool
    ensures { let t = trigger.entry in Decides result (Unsatisfied (meaning t.rule.now) (look t.values.now) (formulas t.facts.now)) }
{
    trigger.is_match() && !trigger.is_satisfied()
}

fn is_applied(trigger: Trigger) -> bool
    ensures { let t = trigger.entry in Decides result (Applies (meaning t.rule.now) (look t.values.now) (formulas t.facts.now)) }
{
    is_unsatisfied(trigger) && trigger.is_fresh()
}

/// Adds to the facts what the rule's head is under the values, as an application does.
fn apply<const N: usize>(rule: &Rule, values: &[Term], facts: &mut ArrayVec<Atom, N>)
    requires { array_vec_len facts.old + 4 ≤ N }
    ensures few { array_vec_len facts.new ≤ array_vec_len facts.old + 4 }
    ensures is { formulas facts.new.items ≡ result_of (meaning rule.now) (look values.now) (formulas facts.old.items) }
{
    push_each(rule.head(), &Under(values), facts);
}
