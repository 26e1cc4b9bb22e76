//! Additions with any facts of their own, also with such as no application gives them.
use crate::{Addition, FactSource, RowTable, first_match, is_satisfied};
use matches::are_facts;
use rules::{Atom, Rule, RuleParts, Term};
use std::process::Abort;
use std::test::Fail;

/// An atom of two terms.
fn pair(predicate: u16, first: Term, second: Term) -> Atom {
    Atom {
        predicate,
        arity: 2,
        terms: [first, second, Term::Variable(0), Term::Variable(0)],
    }
}

fn fact(number: u16) -> Atom {
    pair(1, Term::Constant(number), Term::Null(number))
}

/// Gives the addition these facts, which are at most four.
fn hold<S: FactSource>(addition: &mut Addition<S>, facts: &[Atom]) -> Result<(), Fail> {
    if facts.len() > 4 {
        return Err(Fail::new("too many facts"));
    }
    if !are_facts(facts) {
        return Err(Fail::new("no facts"));
    }
    addition.hold(facts);
    Ok(())
}

/// The source has these facts, in this order, and no others.
fn expect_facts<S: FactSource>(rt: &impl Abort, source: &S, facts: &[Atom]) -> Result<(), Fail> {
    assert_eq!(rt; source.count(), facts.len());
    for (index, fact) in facts.iter().enumerate() {
        let Ok(given) = source.fact(index) else {
            return Err(Fail::new("too few facts"));
        };
        assert!(rt; given == *fact);
    }
    let Err(fault) = source.fact(facts.len()) else {
        return Err(Fail::new("a fact past the last one"));
    };
    assert_eq!(rt; (fault.number(), fault.place()), (17, facts.len()));
    Ok(())
}

/// The facts of each layer come after those below, and its own are replaced.
#[test]
fn layers(rt: HostRuntime) -> Result<(), Fail> {
    let facts = [
        fact(0),
        fact(1),
        fact(2),
        fact(3),
        fact(4),
        fact(5),
        fact(6),
    ];
    let mut one = Addition::new(RowTable::take_up(&facts[..2]));
    expect_facts(&rt, &one, &facts[..2])?;
    hold(&mut one, &facts[2..6])?;
    expect_facts(&rt, &one, &facts[..6])?;
    hold(&mut one, &facts[2..3])?;
    expect_facts(&rt, &one, &facts[..3])?;
    let two = Addition::new(one);
    expect_facts(&rt, &two, &facts[..3])?;
    let mut three = Addition::new(two);
    hold(&mut three, &facts[3..7])?;
    expect_facts(&rt, &three, &facts)?;
    hold(&mut three, &[])?;
    expect_facts(&rt, &three, &facts[..3])
}

/// No source has more than 4,096 facts: what comes after is cut, in each layer.
#[test]
fn cut(rt: HostRuntime) -> Result<(), Fail> {
    let mut rows = Vec::new(rt.alloc());
    for number in 0..4096 {
        rows.push(fact(number))?;
    }
    let rows = rows.as_slice();
    let most = rows.get(..4094).ok_or("too few rows")?;
    let mut one = Addition::new(RowTable::take_up(most));
    hold(&mut one, &[fact(4094), fact(4095), fact(9), fact(9)])?;
    expect_facts(&rt, &one, rows)?;
    let mut two = Addition::new(&one);
    hold(&mut two, &[fact(9)])?;
    expect_facts(&rt, &two, rows)
}

/// A match that takes a fact of each layer, and is satisfied by the topmost one.
#[test]
fn searched(rt: HostRuntime) -> Result<(), Fail> {
    let (x, y, z) = (Term::Variable(0), Term::Variable(1), Term::Variable(2));
    let (a, b, c) = (Term::Constant(1), Term::Constant(2), Term::Null(3));
    let mut parts = RuleParts::BLANK;
    parts.body[0] = pair(1, x, y);
    parts.body[1] = pair(2, y, z);
    parts.bodies = 2;
    parts.head[0] = pair(3, z, Term::Variable(3));
    parts.heads = 1;
    let rule = Rule::new(parts).ok_or("no rule")?;
    let rows = [pair(2, b, c)];
    let mut one = Addition::new(RowTable::take_up(&rows));
    hold(&mut one, &[pair(1, a, b)])?;
    let mut two = Addition::new(one);
    let mut stack = [7; 6];
    let mut heads = [7; 6];
    let mut found = [Term::Constant(9); 12];
    assert!(&rt; first_match(&rule, &two, &mut stack, &mut found));
    assert_eq!(&rt; stack, [1, 0, 7, 7, 7, 7]);
    assert!(&rt; found[0] == a && found[1] == b && found[2] == c);
    assert!(&rt; !is_satisfied(&rule, &two, &mut heads, &found));
    hold(&mut two, &[pair(3, c, a)])?;
    assert!(&rt; is_satisfied(&rule, &two, &mut heads, &found));
    assert_eq!(&rt; heads, [2, 7, 7, 7, 7, 7]);
    Ok(())
}
