//! Sheets written by hand: which show a relation, and what little has to change for them to show none.
use crate::expect::{add_line, read_claim, stale_sheet};
use crate::text::{Names, is_said, read_atoms, read_pair, read_term};
use reliances::{Sheet, verify};
use rules::Term;
use std::alloc::Global;
use std::process::Abort;
use std::test::Fail;

fn read_values<'a>(
    text: &'a str,
    into: &mut [Term; 12],
    variables: &mut Names<'a>,
) -> Result<(), Fail> {
    for (place, term) in into.iter_mut().zip(text.split_whitespace()) {
        *place = read_term(term, variables)?;
    }
    Ok(())
}

/// A sheet as `p(1), q(n0) | | 1 n0 | 1 | 1 2`: its two lists, and what the variables of the first rule, of the second and
/// those of the alternative are given, in their order. Variables stand in the entries that are not written.
fn read_sheet<'a>(heap: Global, text: &'a str, predicates: &mut Names<'a>) -> Result<Sheet, Fail> {
    let mut variables = Names::new(heap);
    let mut sheet = stale_sheet();
    let (first, rest) = text.split_once("|").ok_or("no second list")?;
    let (second, rest) = rest.split_once("|").ok_or("no first rule")?;
    let (first_rule, rest) = rest.split_once("|").ok_or("no second rule")?;
    let (second_rule, alternative) = rest.split_once("|").ok_or("no alternative")?;
    sheet.first_len = read_atoms(first.trim(), &mut sheet.first, predicates, &mut variables)?;
    sheet.second_len = read_atoms(second.trim(), &mut sheet.second, predicates, &mut variables)?;
    read_values(first_rule, &mut sheet.first_rule, &mut variables)?;
    read_values(second_rule, &mut sheet.second_rule, &mut variables)?;
    read_values(alternative, &mut sheet.alternative, &mut variables)?;
    Ok(sheet)
}

/// Whether a line is right for the two rules: its sheet shows what the line says of them, or does not where it says `not`.
fn is_right(heap: Global, pair: &str, line: &str) -> Result<bool, Fail> {
    let (claim, text) = line.split_once(":").ok_or("no colon")?;
    let (kind, shows) = read_claim(claim)?;
    let mut predicates = Names::new(heap);
    let (first, second) = read_pair(heap, pair, &mut predicates)?;
    let sheet = read_sheet(heap, text, &mut predicates)?;
    Ok(verify(kind, &first, &second, &sheet) == shows)
}

/// Each line of the table is right for the two rules.
fn expect_sheets(rt: &impl Abort, heap: Global, pair: &str, table: &str) -> Result<(), Fail> {
    let mut wrong = String::new(heap);
    for line in table.lines() {
        let line = line.trim();
        if is_said(line) && !is_right(heap, pair, line)? {
            add_line(&mut wrong, line)?;
        }
    }
    assert!(rt; wrong.is_empty(), "wrong:{wrong}");
    Ok(())
}

const RELYING: &str = "p(x) -> q(x,y); q(x,y), r(x) -> s(x,z)";

const RELIES: &str = "
    relies: p(1), r(1) | | 1 n0 | 1 n0 |
    # other values
    relies: r(n4), p(n4) | | n4 n2 | n4 n2 |
    # entries that are not read
    relies: p(1), r(1) | | 1 n0 n0 | 1 n0 n0 x | n0 x
    # as many facts as there can be, and one more
    relies: u(1), u(2), u(3), u(4), u(5), u(6), u(7), u(8), u(9), p(1), r(1) | | 1 n0 | 1 n0 |
    relies not: u(1), u(2), u(3), u(4), u(5), u(6), u(7), u(8), p(1), r(1), u(9), u(9) | | 1 n0 | 1 n0 |
    # a second list, too long a one
    relies not: p(1), r(1) | u(1) | 1 n0 | 1 n0 |
    relies not: p(1) | r(1) | 1 n0 | 1 n0 |
    relies not: p(1), r(1) | u(0), u(1), u(2), u(3), u(4), u(5), u(6), u(7), u(8), u(9) | 1 n0 | 1 n0 |
    # no fact
    relies not: p(1), r(1), u() | | 1 n0 | 1 n0 |
    relies not: p(1), r(1), u(1,2,3,4,5) | | 1 n0 | 1 n0 |
    relies not: p(1), r(1), u(1,x) | | 1 n0 | 1 n0 |
    # a variable in an entry that is read
    relies not: p(1), r(1) | | x n0 | 1 n0 |
    relies not: p(1), r(1) | | 1 x | 1 n0 |
    relies not: p(1), r(1) | | 1 n0 | x n0 |
    relies not: p(1), r(1) | | 1 n0 | 1 x |
    # a fact left out, or another in its place
    relies not: | | 1 n0 | 1 n0 |
    relies not: p(1) | | 1 n0 | 1 n0 |
    relies not: r(1) | | 1 n0 | 1 n0 |
    relies not: p(1), r(1,1) | | 1 n0 | 1 n0 |
    relies not: p(1), r(2) | | 1 n0 | 1 n0 |
    # no match
    relies not: p(1), r(1), r(2) | | 2 n0 | 2 n0 |
    relies not: p(1), r(1), r(2) | | 1 n0 | 2 n0 |
    relies not: p(1), r(1) | | 1 n0 | 1 n1 |
    # a match before
    relies not: p(1), r(1), p(2), q(2,5), r(2) | | 1 n0 | 2 5 |
    # no null, or one that stands in a fact
    relies not: p(1), r(1) | | 1 2 | 1 2 |
    relies not: p(1), r(1), u(n0) | | 1 n0 | 1 n0 |
    # satisfied
    relies not: p(1), r(1), q(1,5) | | 1 n0 | 1 n0 |
    relies not: p(1), r(1), s(1,5) | | 1 n0 | 1 n0 |
    # the other relation
    restrains not: p(1), r(1) | | 1 n0 | 1 n0 n1 | 1 n0 n1
";

const RESTRAINING: &str =
    "flat(e,f), big(e) -> flat(e,9), by(f,g); frame(e,c) -> flat(e,f), mark(h)";

const RESTRAINS: &str = "
    restrains: frame(1,2) | big(1) | 1 n0 n2 | 1 2 n0 n1 | 1 2 9 n1
    # other values
    restrains: frame(n5,n5) | big(n5) | n5 n4 n3 | n5 n5 n4 n0 | n5 n5 9 n0
    # entries that are not read
    restrains: frame(1,2) | big(1) | 1 n0 n2 x | 1 2 n0 n1 n0 | 1 2 9 n1 n0
    # as many facts as there can be, and one more
    restrains: u(0), u(1), u(2), u(3), u(4), u(5), u(6), u(7), u(8), u(9), frame(1,2) | u(1), u(2), u(3), u(4), u(5), u(6), u(7), u(8), big(1) | 1 n0 n2 | 1 2 n0 n1 | 1 2 9 n1
    restrains not: u(0), u(1), u(2), u(3), u(4), u(5), u(6), u(7), u(8), frame(1,2), u(9), u(9) | big(1) | 1 n0 n2 | 1 2 n0 n1 | 1 2 9 n1
    restrains not: frame(1,2) | u(1), u(2), u(3), u(4), u(5), u(6), u(7), big(1), u(8), u(8) | 1 n0 n2 | 1 2 n0 n1 | 1 2 9 n1
    # no fact
    restrains not: frame(1,2), u() | big(1) | 1 n0 n2 | 1 2 n0 n1 | 1 2 9 n1
    restrains not: frame(1,2), u(1,2,3,4,5) | big(1) | 1 n0 n2 | 1 2 n0 n1 | 1 2 9 n1
    restrains not: frame(1,2), u(1,x) | big(1) | 1 n0 n2 | 1 2 n0 n1 | 1 2 9 n1
    restrains not: frame(1,2) | big(1), u() | 1 n0 n2 | 1 2 n0 n1 | 1 2 9 n1
    restrains not: frame(1,2) | big(1), u(1,2,3,4,5) | 1 n0 n2 | 1 2 n0 n1 | 1 2 9 n1
    restrains not: frame(1,2) | big(1), u(1,x) | 1 n0 n2 | 1 2 n0 n1 | 1 2 9 n1
    # a variable in an entry that is read
    restrains not: frame(1,2) | big(1) | x n0 n2 | 1 2 n0 n1 | 1 2 9 n1
    restrains not: frame(1,2) | big(1) | 1 x n2 | 1 2 n0 n1 | 1 2 9 n1
    restrains not: frame(1,2) | big(1) | 1 n0 x | 1 2 n0 n1 | 1 2 9 n1
    restrains not: frame(1,2) | big(1) | 1 n0 n2 | x 2 n0 n1 | 1 2 9 n1
    restrains not: frame(1,2) | big(1) | 1 n0 n2 | 1 x n0 n1 | 1 2 9 n1
    restrains not: frame(1,2) | big(1) | 1 n0 n2 | 1 2 x n1 | 1 2 9 n1
    restrains not: frame(1,2) | big(1) | 1 n0 n2 | 1 2 n0 x | 1 2 9 n1
    restrains not: frame(1,2) | big(1) | 1 n0 n2 | 1 2 n0 n1 | x 2 9 n1
    restrains not: frame(1,2) | big(1) | 1 n0 n2 | 1 2 n0 n1 | 1 x 9 n1
    restrains not: frame(1,2) | big(1) | 1 n0 n2 | 1 2 n0 n1 | 1 2 x n1
    restrains not: frame(1,2) | big(1) | 1 n0 n2 | 1 2 n0 n1 | 1 2 9 x
    # a fact left out, or on the other list
    restrains not: | big(1) | 1 n0 n2 | 1 2 n0 n1 | 1 2 9 n1
    restrains not: frame(1,2) | | 1 n0 n2 | 1 2 n0 n1 | 1 2 9 n1
    restrains not: | frame(1,2), big(1) | 1 n0 n2 | 1 2 n0 n1 | 1 2 9 n1
    restrains: frame(1,2), big(1) | | 1 n0 n2 | 1 2 n0 n1 | 1 2 9 n1
    # no match
    restrains not: frame(1,2) | big(1), big(2) | 2 n0 n2 | 1 2 n0 n1 | 1 2 9 n1
    restrains not: frame(1,2) | big(1) | 1 n3 n2 | 1 2 n0 n1 | 1 2 9 n1
    restrains not: frame(1,2) | big(1) | 1 n0 n2 | 1 3 n0 n1 | 1 3 9 n1
    # no null, no null of its own, or one that stands in a fact
    restrains not: frame(1,2) | big(1) | 1 n0 3 | 1 2 n0 n1 | 1 2 9 n1
    restrains not: frame(1,2) | big(1) | 1 n0 n0 | 1 2 n0 n1 | 1 2 9 n1
    restrains not: frame(1,2) | big(1) | 1 n0 n1 | 1 2 n0 n1 | 1 2 9 n1
    restrains not: frame(1,2), u(n2) | big(1) | 1 n0 n2 | 1 2 n0 n1 | 1 2 9 n1
    restrains not: frame(1,2) | big(1), u(n2) | 1 n0 n2 | 1 2 n0 n1 | 1 2 9 n1
    restrains not: frame(1,2) | big(1) | 1 3 n2 | 1 2 3 n1 | 1 2 9 n1
    restrains not: frame(1,2) | big(1), mark(5) | 1 n0 n2 | 1 2 n0 n0 | 1 2 9 5
    restrains not: frame(1,2), u(n0) | big(1) | 1 n0 n2 | 1 2 n0 n1 | 1 2 9 n1
    # a null that the second rule's application gave stands in a fact besides
    restrains: frame(1,2) | big(1), u(n0) | 1 n0 n2 | 1 2 n0 n1 | 1 2 9 n1
    # satisfied
    restrains not: frame(1,2) | big(1), flat(1,9), by(n0,5) | 1 n0 n2 | 1 2 n0 n1 | 1 2 9 n1
    restrains not: frame(1,2), flat(1,6), mark(6) | big(1) | 1 n0 n2 | 1 2 n0 n1 | 1 2 9 n1
    # the alternative gives universal variables other values, has an atom that is no fact, or leaves no null out
    restrains not: frame(1,2) | big(1), flat(2,9) | 1 n0 n2 | 1 2 n0 n1 | 2 2 9 n1
    restrains not: frame(1,2) | big(1) | 1 n0 n2 | 1 2 n0 n1 | 1 3 9 n1
    restrains not: frame(1,2) | big(1) | 1 n0 n2 | 1 2 n0 n1 | 1 2 8 n1
    restrains not: frame(1,2) | big(1) | 1 n0 n2 | 1 2 n0 n1 | 1 2 9 n3
    restrains not: frame(1,2) | big(1) | 1 n0 n2 | 1 2 n0 n1 | 1 2 n0 n1
    # an alternative too early, which leaves out the same null or the other
    restrains not: frame(1,2) | big(1), flat(1,7) | 1 n0 n2 | 1 2 n0 n1 | 1 2 9 n1
    restrains not: frame(1,2), flat(1,7) | big(1) | 1 n0 n2 | 1 2 n0 n1 | 1 2 9 n1
    restrains not: frame(1,2) | big(1), mark(5) | 1 n0 n2 | 1 2 n0 n1 | 1 2 9 n1
    # the other relation
    relies not: frame(1,2) | big(1) | 1 n0 n2 | 1 2 n0 n1 | 1 2 9 n1
    relies not: frame(1,2), big(1) | | 1 n0 n2 | 1 2 n0 n1 | 1 2 9 n1
";

/// The first rule is satisfied wherever it matches: here by the null that the second gave.
const SATISFIED: &str = "flat(e,f), link(e,f) -> flat(e,g), link(e,g); frame(e) -> flat(e,f)";

const NEVER: &str = "
    restrains not: frame(1) | link(1,n0) | 1 n0 n1 | 1 n0 | 1 n1
";

/// Two rules between which both relations hold.
const BOTH: &str = "p(x,y) -> q(x,y); q(x,y) -> q(x,z), s(z)";

const EITHER: &str = "
    relies: p(1,2) | | 1 2 | 1 2 |
    restrains not: p(1,2) | | 1 2 | 1 2 n0 | 1 2 2
    restrains: q(1,2) | p(1,3), s(3) | 1 3 | 1 2 n0 | 1 2 3
    relies not: q(1,2) | p(1,3), s(3) | 1 3 | 1 2 n0 | 1 2 3
    restrains: q(1,2), p(1,3), s(3) | | 1 3 | 1 2 n0 | 1 2 3
    relies not: q(1,2), p(1,3), s(3) | | 1 3 | 1 2 n0 | 1 2 3
";

#[test]
fn relies(rt: HostRuntime) -> Result<(), Fail> {
    expect_sheets(&rt, rt.alloc(), RELYING, RELIES)
}

#[test]
fn restrains(rt: HostRuntime) -> Result<(), Fail> {
    expect_sheets(&rt, rt.alloc(), RESTRAINING, RESTRAINS)
}

#[test]
fn satisfied(rt: HostRuntime) -> Result<(), Fail> {
    expect_sheets(&rt, rt.alloc(), SATISFIED, NEVER)
}

#[test]
fn either(rt: HostRuntime) -> Result<(), Fail> {
    expect_sheets(&rt, rt.alloc(), BOTH, EITHER)
}
