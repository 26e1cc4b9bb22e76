// Whether a relation holds between two rules, with a sheet that shows it: what the predicates alone rule out is told first,
// and then a search begins.
ghost use Rattle.std.specs.Prelude.{◌≡◌, true, false, Decides};
ghost use Rattle.std.specs.List.{filter};
ghost use Rattle.rules.specs.Logic.{Each, formula_of};
ghost use Rattle.rules.specs.Rules.{meaning};
ghost use Rattle.matches.specs.Lists.{formulas};
ghost use Rattle.reliances.specs.declared.sheet.Kind.TheVariants.{Positive, Restraint};
ghost use Rattle.reliances.specs.Unification.{existential_term?, shares?};
ghost use Rattle.reliances.specs.Following.{Small};
ghost use Rattle.reliances.specs.RestraintSearch.{opens?, shifted};
ghost use Rattle.reliances.specs.Searching.{gone};
ghost use Rattle.reliances.specs.Sheets.{Shows, Holds, Answered};

use crate::lists::{any_of, count_of, push_each, share_predicate};
use crate::reliance_search::Relies;
use crate::restraint_search::{Restrains, Shifted};
use crate::search::{Question, Relation, Way, search};
use crate::substitution::start_slots;
use crate::{Kind, Sheet};
use arrayvec::ArrayVec;
use rules::{Atom, Rule, Term};

/// Whether the relation holds between the two rules, which may be one and the same. If so, the sheet shows it. If not, no
/// facts and matches at all meet its definition, and the sheet is as it was.
pub fn ask(kind: Kind, first: &Rule, second: &Rule, sheet: &mut Sheet) -> bool
    ensures holds { Decides result (Holds kind (meaning first.now) (meaning second.now)) }
    ensures shown { result ≡ true → Shows kind (meaning first.now) (meaning second.now) sheet.new }
    ensures kept { result ≡ false → sheet.new ≡ sheet.old }
{
    answer(kind, first, second, sheet)
}

fn answer(kind: Kind, first: &Rule, second: &Rule, sheet: &mut Sheet) -> bool
    ensures { Answered result kind (meaning first.now) (meaning second.now) sheet.old sheet.new }
{
    match kind {
        Kind::Positive => ask_reliance(first, second, sheet),
        Kind::Restraint => ask_restraint(first, second, sheet),
    }
}

// The second rule's body is gone through.
fn ask_reliance(first: &Rule, second: &Rule, sheet: &mut Sheet) -> bool
    ensures { Answered result Positive (meaning first.now) (meaning second.now) sheet.old sheet.new }
{
    first.may_meet_body(second)
        && share_predicate(first.head(), second.body())
        && search_reliance(first, second, sheet)
}

// Where the predicates do not rule the relation out.
fn search_reliance(first: &Rule, second: &Rule, sheet: &mut Sheet) -> bool
    ensures { Answered result Positive (meaning first.now) (meaning second.now) sheet.old sheet.new }
{
    let body = second.body();
    let asked = Question::<Relies>::new(first, second, body.len());
    begin(&asked, body, sheet)
}

// The atoms of the second rule's head that have existential variables are gone through, as an alternative reads them.
fn ask_restraint(first: &Rule, second: &Rule, sheet: &mut Sheet) -> bool
    ensures { Answered result Restraint (meaning first.now) (meaning second.now) sheet.old sheet.new }
{
    first.may_meet_head(second)
        && share_open(first, second)
        && search_restraint(first, second, sheet)
}

fn search_restraint(first: &Rule, second: &Rule, sheet: &mut Sheet) -> bool
    ensures { Answered result Restraint (meaning first.now) (meaning second.now) sheet.old sheet.new }
{
    let open = open_atoms(second);
    let asked = Question::<Restrains>::new(first, second, open.len());
    let mut read: ArrayVec<Atom, 4> = ArrayVec::new();
    push_each(&open, &Shifted(&asked.rigid), &mut read);
    begin(&asked, &read, sheet)
}

// Whether the first rule's head has the predicate of an open atom of the second rule's head.
fn share_open(first: &Rule, second: &Rule) -> bool
    ensures { result ≡ shares? (meaning first.now).head (shifted (meaning second.now)) }
{
    let heads = first.head();
    second
        .head()
        .iter()
        .any(|b| any_of(heads, b.predicate) && is_open(b, second))
}

// The head atoms in which an existential variable stands.
fn open_atoms(rule: &Rule) -> ArrayVec<Atom, 4>
    ensures same { formulas result.items ≡ filter (opens? (meaning rule.now)) (meaning rule.now).head }
    ensures small { Each Small result.items }
{
    let mut open = ArrayVec::new();
    for a in rule.head() {
        if is_open(a, rule) {
            open.push(*a);
        }
    }
    open
}

// Whether an existential variable of the rule stands in the atom.
fn is_open(a: &Atom, rule: &Rule) -> bool
    ensures { result ≡ opens? (meaning rule.now) (formula_of a.now) }
{
    a.args().iter().any(|t| is_existential(*t, rule))
}

fn is_existential(t: Term, rule: &Rule) -> bool
    ensures { result ≡ existential_term? (meaning rule.now) t }
{
    matches!(t, Term::Variable(v) if rule.is_existential(v))
}

// The whole search.
fn begin<R: Relation>(asked: &Question<R>, atoms: &[Atom], sheet: &mut Sheet) -> bool
    requires all { formulas atoms.now ≡ gone R.KIND (meaning asked.now.second.now) }
    requires small { Each Small atoms.now }
    ensures { Answered result R.KIND (meaning asked.now.first.now) (meaning asked.now.second.now) sheet.old sheet.new }
{
    let way = Way {
        sigma: &start_slots(),
        old: &[],
        rest: atoms,
    };
    if is_wide(asked.first.head(), atoms) && R::is_hopeless(asked, &way) {
        return false;
    }
    search(asked, &way, sheet)
}

// Whether so many pairs of atoms have a predicate in common that a look before the search is worth its time.
fn is_wide(heads: &[Atom], atoms: &[Atom]) -> bool {
    let mut pairs: usize = 0;
    for b in atoms {
        pairs = pairs.saturating_add(count_of(heads, b.predicate));
    }
    pairs >= 8
}
