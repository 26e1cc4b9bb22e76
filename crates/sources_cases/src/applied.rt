//! Applications of rules on sources, and those that are declined.
use crate::build::{atom, c, many_rows, n, rule, x};
use crate::expect::{expect_facts, told};
use crate::seen::{STALE_ROWS, open};
use rules::{Atom, Rule, Term};
use sources::{Addition, FactSource, RowTable, is_satisfied};
use std::alloc::{AllocError, Global};
use std::process::Abort;
use std::test::Fail;

/// The first variables are given these terms, and the others variables.
pub fn given(terms: &[Term]) -> [Term; 12] {
    open(&[], 0, terms).values
}

/// The facts, and then the others.
fn joined(heap: Global, facts: &[Atom], others: &[Atom]) -> Result<Vec<Atom>, AllocError> {
    let mut all = Vec::new(heap);
    all.extend_from_slice(facts)?;
    all.extend_from_slice(others)?;
    Ok(all)
}

/// The rule is applied on the facts, and adds these, also where the addition had others.
fn expect_applied(
    rt: &impl Abort,
    heap: Global,
    facts: &[Atom],
    rule: &Rule,
    terms: &[Term],
    own: &[Atom],
) -> Result<(), Fail> {
    let all = joined(heap, facts, own)?;
    let mut addition = Addition::new(RowTable::take_up(facts));
    assert!(rt; addition.apply(rule, &given(terms)).is_ok());
    expect_facts(rt, &addition, all.as_slice())?;
    assert!(rt; is_satisfied(rule, &addition, &mut { STALE_ROWS }, &given(terms)));
    assert!(rt; addition.apply(rule, &given(terms)).is_ok());
    expect_facts(rt, &addition, all.as_slice())
}

/// The call is declined by this refusal.
fn expect_fault<S: FactSource>(
    rt: &impl Abort,
    addition: &mut Addition<S>,
    rule: &Rule,
    terms: &[Term],
    number: u8,
) -> Result<(), Fail> {
    let Err(fault) = addition.apply(rule, &given(terms)) else {
        return Err(Fail::new("applied"));
    };
    assert_eq!(rt; told(fault), (number, 7, 0, 0));
    Ok(())
}

/// The same on the facts, where the addition has none of its own, which stays so.
fn expect_declined(
    rt: &impl Abort,
    facts: &[Atom],
    rule: &Rule,
    terms: &[Term],
    number: u8,
) -> Result<(), Fail> {
    let mut addition = Addition::new(RowTable::take_up(facts));
    expect_fault(rt, &mut addition, rule, terms, number)?;
    expect_facts(rt, &addition, facts)
}

/// p1(x0,x1) -> p2(x1,z2): a rule with one new null.
fn one_new() -> Result<Rule, Fail> {
    rule(&[atom(1, &[x(0), x(1)])], &[atom(2, &[x(1), x(2)])])
}

#[test]
fn plain(rt: HostRuntime) -> Result<(), Fail> {
    let facts = [atom(1, &[c(1), c(2)]), atom(1, &[c(1), n(2)])];
    let own = [atom(2, &[c(2), n(3)])];
    expect_applied(&rt, rt.alloc(), &facts, &one_new()?, &[c(1), c(2)], &own)?;
    let own = [atom(2, &[n(2), n(3)])];
    expect_applied(&rt, rt.alloc(), &facts, &one_new()?, &[c(1), n(2)], &own)?;
    // where no null stands there, the first is 0
    let own = [atom(2, &[c(2), n(0)])];
    expect_applied(
        &rt,
        rt.alloc(),
        &facts[..1],
        &one_new()?,
        &[c(1), c(2)],
        &own,
    )
}

/// Nulls are numbered in the order in which their variables first stand in the head, and not by the variables.
#[test]
fn in_order(rt: HostRuntime) -> Result<(), Fail> {
    let rule = rule(
        &[atom(1, &[x(0)])],
        &[atom(2, &[x(2), x(1)]), atom(2, &[x(1), x(3)])],
    )?;
    let facts = [atom(1, &[c(1)])];
    let own = [atom(2, &[n(0), n(1)]), atom(2, &[n(1), n(2)])];
    expect_applied(&rt, rt.alloc(), &facts, &rule, &[c(1)], &own)?;
    let facts = [atom(1, &[c(1)]), atom(3, &[n(7), c(60), n(3)])];
    let own = [atom(2, &[n(8), n(9)]), atom(2, &[n(9), n(10)])];
    expect_applied(&rt, rt.alloc(), &facts, &rule, &[c(1)], &own)
}

/// Four atoms of four terms, with constants, universal variables and four existential ones.
#[test]
fn full_head(rt: HostRuntime) -> Result<(), Fail> {
    let rule = rule(
        &[atom(1, &[x(0), x(1)])],
        &[
            atom(2, &[x(11), x(0), c(5), x(10)]),
            atom(3, &[x(1), x(9), x(11), x(11)]),
            atom(4, &[x(8), x(1), x(9), x(0)]),
            atom(5, &[c(1), c(2), c(3), x(10)]),
        ],
    )?;
    let facts = [atom(1, &[n(4), c(2)])];
    let own = [
        atom(2, &[n(5), n(4), c(5), n(6)]),
        atom(3, &[c(2), n(7), n(5), n(5)]),
        atom(4, &[n(8), c(2), n(7), n(4)]),
        atom(5, &[c(1), c(2), c(3), n(6)]),
    ];
    expect_applied(&rt, rt.alloc(), &facts, &rule, &[n(4), c(2)], &own)
}

/// No match of the rule: other terms, a variable, a constant for a null, and one atom of two.
#[test]
fn no_match(rt: HostRuntime) -> Result<(), Fail> {
    let facts = [atom(1, &[c(1), n(2)]), atom(1, &[c(3), c(4)])];
    expect_declined(&rt, &[], &one_new()?, &[c(1), n(2)], 18)?;
    expect_declined(&rt, &facts, &one_new()?, &[c(1), c(4)], 18)?;
    expect_declined(&rt, &facts, &one_new()?, &[c(1), c(2)], 18)?;
    expect_declined(&rt, &facts, &one_new()?, &[c(1)], 18)?;
    expect_declined(&rt, &facts, &one_new()?, &[x(0), x(1)], 18)?;
    let two = rule(
        &[atom(1, &[x(0), x(1)]), atom(1, &[x(1), x(0)])],
        &[atom(2, &[x(0)])],
    )?;
    expect_declined(&rt, &facts, &two, &[c(1), n(2)], 18)
}

/// Satisfied by a fact below, with any term for the existential variable.
#[test]
fn satisfied_below(rt: HostRuntime) -> Result<(), Fail> {
    let facts = [atom(1, &[c(1), c(2)]), atom(2, &[c(2), c(9)])];
    expect_declined(&rt, &facts, &one_new()?, &[c(1), c(2)], 19)?;
    let facts = [atom(1, &[c(1), c(2)]), atom(2, &[c(1), c(9)])];
    let own = [atom(2, &[c(2), n(0)])];
    expect_applied(&rt, rt.alloc(), &facts, &one_new()?, &[c(1), c(2)], &own)
}

/// The last null is 65,535. A rule of no existential variable needs none.
#[test]
fn last_null(rt: HostRuntime) -> Result<(), Fail> {
    let facts = [atom(1, &[c(1), c(2)]), atom(3, &[n(65534)])];
    let own = [atom(2, &[c(2), n(65535)])];
    expect_applied(&rt, rt.alloc(), &facts, &one_new()?, &[c(1), c(2)], &own)?;
    let two = rule(&[atom(1, &[x(0), x(1)])], &[atom(2, &[x(2), x(3)])])?;
    expect_declined(&rt, &facts, &two, &[c(1), c(2)], 20)?;
    let facts = [atom(1, &[c(1), c(2)]), atom(3, &[n(65535)])];
    expect_declined(&rt, &facts, &one_new()?, &[c(1), c(2)], 20)?;
    let none = rule(&[atom(1, &[x(0), x(1)])], &[atom(2, &[x(1), x(1)])])?;
    let own = [atom(2, &[c(2), c(2)])];
    expect_applied(&rt, rt.alloc(), &facts, &none, &[c(1), c(2)], &own)
}

/// 4,096 facts may be there afterwards.
#[test]
fn most_facts(rt: HostRuntime) -> Result<(), Fail> {
    let rows = many_rows(rt.alloc(), 4096)?;
    let rows = rows.as_slice();
    let (p, q, r, s) = (
        atom(2, &[x(0)]),
        atom(3, &[x(0)]),
        atom(4, &[x(0)]),
        atom(5, &[x(0)]),
    );
    let (one, three, four) = (
        rule(&[atom(1, &[x(0)])], &[p])?,
        rule(&[atom(1, &[x(0)])], &[p, q, r])?,
        rule(&[atom(1, &[x(0)])], &[p, q, r, s])?,
    );
    expect_declined(&rt, rows, &one, &[c(0)], 21)?;
    let fewer = rows.get(..4095).ok_or("too few rows")?;
    let own = [atom(2, &[c(0)])];
    expect_applied(&rt, rt.alloc(), fewer, &one, &[c(0)], &own)?;
    let fewer = rows.get(..4093).ok_or("too few rows")?;
    expect_declined(&rt, fewer, &four, &[c(0)], 21)?;
    let own = [atom(2, &[c(0)]), atom(3, &[c(0)]), atom(4, &[c(0)])];
    expect_applied(&rt, rt.alloc(), fewer, &three, &[c(0)], &own)
}

/// Where two refusals concern a call, the first one counts.
#[test]
fn first_refusal(rt: HostRuntime) -> Result<(), Fail> {
    // 18 and 19: the head is there, the body is not
    let facts = [atom(2, &[c(2), c(9)])];
    expect_declined(&rt, &facts, &one_new()?, &[c(1), c(2)], 18)?;
    // 19 and 20
    let facts = [atom(1, &[c(1), c(2)]), atom(2, &[c(2), n(65535)])];
    expect_declined(&rt, &facts, &one_new()?, &[c(1), c(2)], 19)?;
    // 20 and 21
    let mut rows = many_rows(rt.alloc(), 4095)?;
    rows.push(atom(1, &[c(1), n(65535)]))?;
    expect_declined(&rt, rows.as_slice(), &one_new()?, &[c(1), n(65535)], 20)
}

/// A declined call leaves the facts of the one before, and an accepted one takes their place. Only the facts below count:
/// the addition's own give no match, satisfy none, and are no reason for another null.
#[test]
fn again(rt: HostRuntime) -> Result<(), Fail> {
    let facts = [atom(1, &[c(1), c(2)]), atom(1, &[c(3), c(4)])];
    let first = joined(rt.alloc(), &facts, &[atom(2, &[c(2), n(0)])])?;
    let second = joined(rt.alloc(), &facts, &[atom(2, &[c(4), n(0)])])?;
    let next = rule(&[atom(2, &[x(0), x(1)])], &[atom(3, &[x(0)])])?;
    let mut addition = Addition::new(RowTable::take_up(&facts));
    assert!(&rt; addition.apply(&one_new()?, &given(&[c(1), c(2)])).is_ok());
    expect_facts(&rt, &addition, first.as_slice())?;
    expect_fault(&rt, &mut addition, &next, &[c(2), n(0)], 18)?;
    expect_facts(&rt, &addition, first.as_slice())?;
    assert!(&rt; addition.apply(&one_new()?, &given(&[c(3), c(4)])).is_ok());
    expect_facts(&rt, &addition, second.as_slice())?;
    expect_fault(&rt, &mut addition, &one_new()?, &[c(3)], 18)?;
    expect_facts(&rt, &addition, second.as_slice())
}
