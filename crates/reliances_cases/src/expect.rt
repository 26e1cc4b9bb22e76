//! What a line of a table of pairs says, and whether it is so.
use crate::text::{Names, is_said, read_pair};
use reliances::{Kind, Sheet, ask, verify};
use rules::{Atom, Term};
use std::alloc::{AllocError, Global};
use std::process::Abort;
use std::test::Fail;

/// What a line says of the two rules that it gives: `relies` where the second positively relies on the first, `restrains`
/// where the first restrains the second, and `relies not` and `restrains not`.
pub fn read_claim(text: &str) -> Result<(Kind, bool), Fail> {
    match text {
        "relies" => Ok((Kind::Positive, true)),
        "relies not" => Ok((Kind::Positive, false)),
        "restrains" => Ok((Kind::Restraint, true)),
        "restrains not" => Ok((Kind::Restraint, false)),
        _ => Err(Fail::new("no claim")),
    }
}

/// No fact, and another one for each number.
fn stale_atom(n: u16) -> Atom {
    Atom {
        predicate: n,
        arity: 77,
        terms: [
            Term::Constant(n),
            Term::Variable(n),
            Term::Null(n),
            Term::Variable(0),
        ],
    }
}

fn stale_atoms<const N: usize>(from: u16) -> [Atom; N] {
    let mut atoms = [Atom::BLANK; N];
    for (atom, n) in atoms.iter_mut().zip(from..) {
        *atom = stale_atom(n);
    }
    atoms
}

fn stale_terms(from: u16) -> [Term; 12] {
    let mut terms = [Term::Constant(0); 12];
    for (term, n) in terms.iter_mut().zip(from..) {
        *term = Term::Variable(n);
    }
    terms
}

/// A sheet that is full and shows nothing: no two entries are alike, and both lists are too long.
pub fn stale_sheet() -> Sheet {
    Sheet {
        first: stale_atoms(100),
        first_len: 201,
        second: stale_atoms(200),
        second_len: 202,
        first_rule: stale_terms(300),
        second_rule: stale_terms(400),
        alternative: stale_terms(500),
    }
}

/// Whether the atoms are the same, also where their arity says that nothing counts.
fn is_same_atom(a: &Atom, b: &Atom) -> bool {
    a.predicate == b.predicate && a.arity == b.arity && a.terms == b.terms
}

fn are_same_atoms(a: &[Atom], b: &[Atom]) -> bool {
    a.len() == b.len() && a.iter().zip(b).all(|(a, b)| is_same_atom(a, b))
}

/// Whether all fields are the same, also past the lengths of the lists.
fn is_same_sheet(a: &Sheet, b: &Sheet) -> bool {
    are_same_atoms(&a.first, &b.first)
        && a.first_len == b.first_len
        && are_same_atoms(&a.second, &b.second)
        && a.second_len == b.second_len
        && a.first_rule == b.first_rule
        && a.second_rule == b.second_rule
        && a.alternative == b.alternative
}

/// Whether a line is right: the answer is what it says; the sheet of a yes shows the relation, and a no leaves the sheet as
/// it was.
fn is_right(heap: Global, line: &str) -> Result<bool, Fail> {
    let (claim, pair) = line.split_once(": ").ok_or("no colon")?;
    let (kind, holds) = read_claim(claim)?;
    let (first, second) = read_pair(heap, pair, &mut Names::new(heap))?;
    let mut sheet = stale_sheet();
    let answer = ask(kind, &first, &second, &mut sheet);
    let right = if holds {
        verify(kind, &first, &second, &sheet)
    } else {
        is_same_sheet(&sheet, &stale_sheet())
    };
    Ok(answer == holds && right)
}

pub fn add_line(lines: &mut String, line: &str) -> Result<(), AllocError> {
    lines.push_str("\n")?;
    lines.push_str(line)
}

/// Each line of the table is right, as `relies: p(x) -> q(x); q(x) -> r(x)`.
pub fn expect_pairs(rt: &impl Abort, heap: Global, table: &str) -> Result<(), Fail> {
    let mut wrong = String::new(heap);
    for line in table.lines() {
        let line = line.trim();
        if is_said(line) && !is_right(heap, line)? {
            add_line(&mut wrong, line)?;
        }
    }
    assert!(rt; wrong.is_empty(), "wrong:{wrong}");
    Ok(())
}
