//! Rules, facts and terms read from text.
use rules::{Atom, Rule, RuleParts, Term};
use std::alloc::Global;
use std::test::Fail;

/// Names, each with a number: 0, 1 and so on, in the order in which they first stand.
#[derive(Drop)]
pub struct Names<'a>(Vec<&'a str>);

impl<'a> Names<'a> {
    pub fn new(heap: Global) -> Self {
        Names(Vec::new(heap))
    }

    fn number(&mut self, name: &'a str) -> Result<u16, Fail> {
        let known = self.0.len();
        if let Some(i) = self.0.iter().position(|n| *n == name) {
            return Ok(u16::try_from(i)?);
        }
        self.0.push(name)?;
        Ok(u16::try_from(known)?)
    }
}

/// A constant as `9`, a null as `n9`, or a variable as `x`.
pub fn read_term<'a>(text: &'a str, variables: &mut Names<'a>) -> Result<Term, Fail> {
    if let Ok(n) = text.parse::<u16>() {
        return Ok(Term::Constant(n));
    }
    if let Some(n) = text.strip_prefix("n") {
        if let Ok(n) = n.parse::<u16>() {
            return Ok(Term::Null(n));
        }
    }
    Ok(Term::Variable(variables.number(text)?))
}

/// An atom as `p(x,y`. Of terms past the fourth only the arity tells, and none are written as `p(`.
fn read_atom<'a>(
    text: &'a str,
    predicates: &mut Names<'a>,
    variables: &mut Names<'a>,
) -> Result<Atom, Fail> {
    let (name, list) = text.split_once("(").ok_or("no bracket")?;
    let mut atom = Atom {
        predicate: predicates.number(name)?,
        ..Atom::BLANK
    };
    if list.is_empty() {
        return Ok(atom);
    }
    for (place, term) in atom.terms.iter_mut().zip(list.split(",")) {
        *place = read_term(term, variables)?;
    }
    atom.arity = u8::try_from(list.split(",").count())?;
    Ok(atom)
}

/// Atoms as `p(x,y), q(y)`, and how many there are. Those that find no room are only counted.
pub fn read_atoms<'a>(
    text: &'a str,
    into: &mut [Atom],
    predicates: &mut Names<'a>,
    variables: &mut Names<'a>,
) -> Result<u8, Fail> {
    if text.is_empty() {
        return Ok(0);
    }
    let list = text.strip_suffix(")").ok_or("no closing bracket")?;
    for (place, atom) in into.iter_mut().zip(list.split("), ")) {
        *place = read_atom(atom, predicates, variables)?;
    }
    Ok(u8::try_from(list.split("), ").count())?)
}

/// A rule as `p(x,y), p(y,z) -> p(x,z)`. Its variables are its own, and the predicates are shared with other rules.
fn read_rule<'a>(heap: Global, text: &'a str, predicates: &mut Names<'a>) -> Result<Rule, Fail> {
    let (body, head) = text.split_once(" -> ").ok_or("no arrow")?;
    let mut variables = Names::new(heap);
    let mut parts = RuleParts::BLANK;
    parts.bodies = read_atoms(body, &mut parts.body, predicates, &mut variables)?;
    parts.heads = read_atoms(head, &mut parts.head, predicates, &mut variables)?;
    Ok(Rule::new(parts).ok_or("no rule")?)
}

/// Two rules as `p(x) -> q(x); q(x) -> p(x)`.
pub fn read_pair<'a>(
    heap: Global,
    text: &'a str,
    predicates: &mut Names<'a>,
) -> Result<(Rule, Rule), Fail> {
    let (first, second) = text.split_once("; ").ok_or("no semicolon")?;
    let first = read_rule(heap, first, predicates)?;
    Ok((first, read_rule(heap, second, predicates)?))
}

/// Whether a line of a table says something: it is not empty, and does not begin with #.
pub fn is_said(line: &str) -> bool {
    !line.is_empty() && !line.starts_with("#")
}
