//! Verdicts that come easily and are wrong, and beside them pairs that differ a little and have the other verdict.
use crate::expect::expect_pairs;
use std::test::Fail;

/// Atoms that unify are not enough: the fact that made the first rule match satisfies the second.
const SATISFIED: &str = "
    relies not: p(x) -> q(x); q(x) -> p(x)
    relies not: p(x,y) -> q(x,y); q(x,y) -> p(x,y)
    relies not: p(x,y) -> q(x,y); q(x,y) -> p(x,z)
    relies: p(x,y) -> q(y,x); q(x,y) -> p(x,z)
    relies: p(x,y) -> q(x); q(x) -> p(x,x)
";

/// A new null equals no value that is there already, and no other new one.
const NEW_NULLS: &str = "
    relies not: frame(e) -> uses(e,f); uses(e,e) -> odd(e)
    relies not: frame(e) -> uses(e,f); frame(e), uses(e,e) -> odd(e)
    relies not: frame(e) -> uses(e,f); uses(e,9) -> odd(e)
    relies not: frame(e) -> uses(e,f); frame(f), uses(e,f) -> odd(e)
    relies not: frame(e) -> uses(f,g); uses(e,e) -> odd(e)
    relies: frame(e) -> uses(f,f); uses(e,e) -> odd(e)
    relies: frame(e) -> uses(f,g); uses(e,f) -> odd(e)
    relies: frame(e) -> uses(e,f), frame(f); frame(f), uses(e,f) -> odd(e)
";

/// The later rule matches on the null that the earlier one made: with unlike values for all variables that is not seen.
const MATCHED_NULLS: &str = "
    restrains: flat(e,f) -> flat(e,9); frame(e) -> flat(e,f)
    restrains: flat(e,f) -> flat(e,e); frame(e) -> flat(e,f)
    restrains: flat(e,f), frame(e) -> flat(e,9); frame(e) -> flat(e,f)
    restrains: flat(e,f), seen(f) -> flat(e,9); frame(e) -> flat(e,f)
    restrains: flat(e,f,g) -> flat(e,g,9); frame(e) -> flat(e,f,g)
    restrains: flat(e,f) -> flat(f,9); frame(e) -> flat(e,f)
    restrains not: flat(e,8) -> flat(e,9); frame(e) -> flat(e,f)
";

/// Exchanging the two nulls gives no alternative, since both remain; an alternative leaves one of them out.
const EXCHANGED: &str = "
    restrains not: frame(e) -> pair(e,f,g), pair(e,g,f); frame(e) -> pair(e,f,g), pair(e,g,f)
    restrains not: pair(e,f,g) -> pair(e,g,f); frame(e) -> pair(e,f,g)
    restrains not: frame(e) -> pair(e,f,g); frame(e) -> pair(e,f,g), pair(e,g,f)
    restrains: pair(e,f,g) -> pair(e,9,9); frame(e) -> pair(e,f,g), pair(e,g,f)
    restrains: pair(e,f,g) -> pair(e,f,f); frame(e) -> pair(e,f,g), pair(e,g,f)
    restrains: pair(e,f,g) -> pair(e,g,f); frame(e) -> pair(e,f,g), pair(e,g,f)
";

#[test]
fn satisfied(rt: HostRuntime) -> Result<(), Fail> {
    expect_pairs(&rt, rt.alloc(), SATISFIED)
}

#[test]
fn new_nulls(rt: HostRuntime) -> Result<(), Fail> {
    expect_pairs(&rt, rt.alloc(), NEW_NULLS)
}

#[test]
fn matched_nulls(rt: HostRuntime) -> Result<(), Fail> {
    expect_pairs(&rt, rt.alloc(), MATCHED_NULLS)
}

#[test]
fn exchanged(rt: HostRuntime) -> Result<(), Fail> {
    expect_pairs(&rt, rt.alloc(), EXCHANGED)
}
