//! Calls of `sources` for programs in other languages: facts come as rows of plain fields, rules as the bytes of a volume.
#![tactic(auto)]

ghost use Rattle.std.specs.Prelude.{◌≡◌, take, min, length};
ghost use Rattle.volumes.specs.Volumes.{rules_of};
ghost use Rattle.sources_c.specs.Plain.{rows_of, given_at};
ghost use Rattle.sources_c.specs.Calls.{RowsTold, FindSays, ApplySays, AfterSays, calls_of};

mod plain;
mod rows;
mod told;

pub use plain::{Given, Lent, Own, PlainAtom, PlainTerm, Told};
use plain::{plain_given, terms};
use rows::{ROOM, table};
use rules::{Rule, Term};
use sources::{Addition, Application, FactSource, RowTable, check_rows, find, find_after};
use std::array;
use told::{facts_from, said, told};
use volumes::RuleVolume;

/// What is wrong with the rows.
#[unsafe(no_mangle)]
pub extern "C" fn pz_check(rows: &[PlainAtom]) -> Told
    ensures { RowsTold (rows_of rows.now) result }
{
    let table = table(rows);
    told(check_rows(&table[..rows.len().min(ROOM)]))
}

/// What `find` answers for the first rule of the volume on a table of the rows: 1 for yes, 0 for no, and 2 where the volume
/// has no rule.
#[unsafe(no_mangle)]
pub extern "C" fn pz_find(rows: &[PlainAtom], rules: &[u8], lent: &mut Lent) -> u8
    ensures { FindSays (rows_of rows.now) (rules_of rules.now) lent.old result lent.new }
{
    let Some(rule) = RuleVolume::take_up(rules).rule(0) else {
        return 2;
    };
    let table = table(rows);
    let source = RowTable::take_up(&table[..rows.len().min(ROOM)]);
    let mut found = terms(&lent.found.terms);
    let answer = find(&rule.rule, &source, &mut lent.stack, &mut found);
    lent.found = plain_given(&found);
    said(answer)
}

/// What `apply` answers for the first rule of the volume on an addition over a table of the rows: the refusal, or 0; and 14
/// where the volume has no rule.
#[unsafe(no_mangle)]
pub extern "C" fn pz_apply(rows: &[PlainAtom], rules: &[u8], found: &Given) -> Told
    ensures { ApplySays (rows_of rows.now) (rules_of rules.now) found.now result }
{
    let Some(rule) = RuleVolume::take_up(rules).rule(0) else {
        return Told {
            number: 14,
            place: 0,
        };
    };
    let table = table(rows);
    let mut addition = Addition::new(RowTable::take_up(&table[..rows.len().min(ROOM)]));
    told(addition.apply(&rule.rule, &terms(&found.terms)))
}

/// The calls of the rule, four at most.
fn applications(rule: Rule, calls: &[Given]) -> [Application; 4]
    ensures { take (min (length calls.now) 4) result ≡ calls_of rule calls.now }
{
    array::from_fn(|index| Application {
        rule,
        found: found_at(calls, index),
    })
}

/// What the call of an index gives the variables; constants 0 past the last call.
fn found_at(calls: &[Given], index: usize) -> [Term; 12]
    ensures { result ≡ given_at calls.now index }
{
    match calls.get(index) {
        Some(call) => terms(&call.terms),
        None => [Term::Constant(0); 12],
    }
}

/// Lays an addition over a table of the rows, applies the first rule of the volume by each of the calls, of which four at
/// most are looked at, and then does as `pz_find` does for the second rule of the volume on the addition. `own` has the
/// addition's own facts then.
#[unsafe(no_mangle)]
pub extern "C" fn pz_find_after(
    rows: &[PlainAtom],
    rules: &[u8],
    calls: &[Given],
    lent: &mut Lent,
    own: &mut Own,
) -> u8
    ensures { AfterSays (rows_of rows.now) (rules_of rules.now) calls.now lent.old own.old result lent.new own.new }
{
    let volume = RuleVolume::take_up(rules);
    let (Some(applied), Some(rule)) = (volume.rule(0), volume.rule(1)) else {
        return 2;
    };
    let table = table(rows);
    let below = RowTable::take_up(&table[..rows.len().min(ROOM)]);
    let applications = applications(applied.rule, calls);
    let mut found = terms(&lent.found.terms);
    let calls = &applications[..calls.len().min(4)];
    let (addition, answer) = find_after(below, calls, &rule.rule, &mut lent.stack, &mut found);
    lent.found = plain_given(&found);
    *own = facts_from(&addition, below.count());
    said(answer)
}
