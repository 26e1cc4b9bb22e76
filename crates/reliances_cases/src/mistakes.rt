//! Pairs that each catch a mistake which a decision procedure may make. Above each pair stands the mistake.
use crate::expect::expect_pairs;
use std::test::Fail;

/// Which of the second rule's body atoms are newly supplied, and by which head atoms.
const RELIANCE_SUPPLY: &str = "
    # only one atom is new
    relies: p(x) -> q(x,z), r(z); q(x,z), r(z) -> s(x)
    # all atoms are new; or each that can be
    relies: p(x), r(x,x) -> q(x); q(x), q(y) -> r(x,y)
    # an atom that cannot be new ends the search
    relies: p(x) -> q(x); q(x), r(x) -> s(x)
    # only the first body atom is tried
    relies: p(x) -> q(x); r(x), q(x) -> s(x)
    # only the first head atom is tried
    relies: p(x) -> r(x), q(x); q(x) -> s(x)
    # a head atom supplies one body atom only
    relies: p(x) -> q(x,z); q(x,z), q(y,z) -> r(x,y)
    # the first head atom that unifies is kept
    relies: p(x), r(x,1) -> q(x,y,1), q(x,y,2); q(x,y,z) -> r(x,z)
    # a fact that the first rule gives is taken for new, though it was there
    relies not: p(x), q(x) -> q(x), r(x); q(x) -> s(x)
";

/// The nulls that the first rule's application gives.
const RELIANCE_NULLS: &str = "
    # a new null may stand in the facts that are matched by the first rule
    relies not: p(x) -> q(x,z); q(x,x) -> s(x)
    # it may stand in the other facts
    relies not: p(x) -> q(x,z); q(x,z), r(z) -> s(z)
    # two new nulls may be equal
    relies not: p(x) -> q(x,y,z); q(x,y,y) -> s(x)
    # a new null may be a constant
    relies not: p(x) -> q(x,z); q(x,9) -> s(x)
    # a new null is matched by no variable
    relies: p(x) -> q(x,z); q(x,z) -> s(z,y)
";

/// Whether the first rule is satisfied where it is to be applied.
const RELIANCE_FIRST: &str = "
    # it is not asked
    relies not: p(x,y) -> p(x,z); p(x,y) -> s(x,y)
    # it is asked of the facts that the first rule matches alone
    relies not: p(x) -> q(x,y); q(x,y), q(x,z), r(z) -> s(y)
    # each head atom is asked by itself
    relies: q(x,y), r(w) -> q(x,z), r(z); q(x,y), r(y) -> s(y)
    # universal variables are free to take other values
    relies: p(x), q(y) -> q(x); q(x) -> s(x)
";

/// Whether the second rule is satisfied once the first is applied.
const RELIANCE_SECOND: &str = "
    # it is not asked
    relies not: p(x), q(x,y) -> q(y,x); q(x,y) -> q(y,x)
    # it is asked before the first rule is applied
    relies not: p(x) -> q(x), s(x); q(x) -> s(x)
    # it is asked of the first rule's head alone
    relies not: p(x) -> q(x); q(x) -> p(x)
    # it is asked without the other facts
    relies not: p(x) -> q(x); q(x), r(x,y) -> r(x,z)
    # existential variables are to be given what the match gives them
    relies not: p(x), s(y) -> q(x); q(x) -> s(z)
    # new nulls do not satisfy it
    relies not: p(x) -> q(x), s(x,z); q(x) -> s(x,y)
    # each head atom is asked by itself
    relies: r(x,y), s(w) -> q(x); q(x) -> r(x,z), s(z)
    # universal variables are free to take other values
    relies: p(x), s(y,y) -> q(x); q(x) -> s(x,z)
";

/// Terms that are compared, and rules that are told apart, in both relations.
const TERMS: &str = "
    # constants are taken for equal
    relies not: p(x) -> q(x,8); q(x,9) -> s(x)
    restrains not: p(x) -> q(x,8); r(x) -> q(z,9)
    # constants are taken for unlike, or match no variable
    relies: p(x) -> q(x,9); q(x,9) -> s(x)
    relies: p(x,y) -> q(x,y); q(x,9) -> s(x)
    restrains: p(x) -> q(x,9); r(x) -> q(z,9)
    # a variable that is repeated takes two values
    relies not: p(x) -> q(1,2); q(x,x) -> s(x)
    relies not: p(x) -> q(x,x,1); q(2,y,y) -> s(y)
    restrains not: p(x,y) -> q(x,8,9); r(x) -> q(x,z,z)
    # a variable that is repeated takes no value
    relies: p(x,y) -> q(x,y); q(x,x) -> s(x)
    restrains: p(x,y,z) -> q(x,y,z); r(x) -> q(x,z,z)
    # the arity does not tell atoms apart
    relies not: p(x) -> q(x); q(x,y) -> s(x)
    relies not: p(x) -> q(x,y); q(x) -> s(x)
    relies: p(x) -> q(x); q(x), s(x,y) -> s(x)
    restrains not: p(x,y) -> q(x,y,y); r(x) -> q(x,z)
    restrains: p(x,y) -> q(x,y); r(x), q(x,x,x) -> q(x,z)
    relies: q(x) -> q(x,x); q(x,y) -> s(x)
    # the predicate does not
    relies not: p(x) -> q(x,1), s(x); q(x,2), r(x) -> t(x)
    restrains not: p(x,y) -> q(x,1,y), s(x,y); r(x) -> q(x,2,z), t(x,z)
    # the variables of two rules are shared, or those of a rule with itself
    relies: p(x,y) -> q(y,x); q(x,y) -> p(x,z)
    relies: p(x,y) -> p(y,z); p(x,y) -> p(y,z)
    restrains: p(x,y) -> q(x,z), s(y,w); p(x,y) -> q(x,z), s(y,w)
";

/// Which of the second rule's head atoms an alternative takes from the first rule's application.
const RESTRAINT_SUPPLY: &str = "
    # only one atom is new
    restrains: big(e,h) -> flat(e,f), mark(f), by(f,h); frame(e) -> flat(e,f), mark(f)
    # all atoms are new
    restrains: master(e,f) -> flat(e,f); frame(e) -> flat(e,f), mark(f)
    # only the first head atom of either rule is tried
    restrains: master(e,f) -> seen(f), flat(e,f); frame(e) -> mark(f), flat(e,f)
    # a head atom supplies one atom only
    restrains: big(e,h) -> flat(e,f), by(f,h); frame(d), frame(e) -> flat(d,f), flat(e,f)
    # the first head atom that unifies is kept
    restrains: big(e), flat(e,f) -> flat(e,f), flat(e,9); frame(e) -> flat(e,f)
";

/// The nulls that the two applications give.
const RESTRAINT_NULLS: &str = "
    # the first rule's null may stand in a fact that the second matches
    restrains not: big(e) -> flat(f,e), by(f); frame(e) -> flat(e,f)
    # it may stand in a fact that the first rule matches
    restrains not: big(e) -> flat(e,g); frame(d) -> flat(f,f)
    # it may stand in the other facts
    restrains not: big(e) -> flat(e,f), by(f); frame(e) -> flat(e,f), mark(f)
    # it may be a constant
    restrains not: big(e) -> flat(e,f); frame(d) -> flat(f,9)
    # it may be what the first rule's match has
    restrains not: flat(e,f) -> link(f,g); frame(e) -> flat(e,f), link(f,f)
    # the second rule's null may stand in a fact that the second matches
    restrains not: flat(e,e) -> tag(e,9); frame(e) -> flat(e,f), tag(e,g)
    # an existential variable of the alternative is not given the first rule's null
    restrains: big(e,h) -> flat(e,f), by(f,h); frame(e) -> flat(e,f)
";

/// Whether the rules are satisfied where they are to be applied.
const RESTRAINT_SATISFIED: &str = "
    # the first: it is not asked, or asked without the second rule's head
    restrains not: frame(e) -> flat(e,f); frame(e) -> flat(e,f)
    # the first: it is asked without the facts that the second rule matches
    restrains not: big(e) -> flat(e,f), mark(e); frame(e), mark(e) -> flat(e,f)
    # the first: it is asked without the facts that the first rule matches
    restrains not: flat(e,g), link(e,g) -> flat(e,f), link(e,f); frame(e) -> flat(e,f)
    # the first: it is asked without the other facts
    restrains not: flat(y,c) -> flat(f,c), link(c,x); frame(e) -> flat(f,g), link(g,h), mark(h)
    # the first: each head atom is asked by itself
    restrains: flat(e,g), mark(h) -> flat(e,f), mark(f); frame(e) -> flat(e,f)
    # the second: it is not asked, nor whether there is an alternative already
    restrains not: master(e,f) -> flat(e,f); frame(e), flat(e,g) -> flat(e,f)
    # the second: each head atom is asked by itself
    restrains: master(e,f) -> flat(e,f); frame(e), flat(e,g), mark(h) -> flat(e,f), mark(f)
";

/// Which null an alternative leaves out.
const SPARED: &str = "
    # it need not leave any out
    restrains not: pair(e,f,g) -> pair(e,g,f); frame(e) -> pair(e,f,g)
    # it has to leave all out
    restrains: master(e,f) -> flat(e,f); frame(e) -> flat(e,f), tag(e,g)
    # it has to leave the first out, or the last
    restrains: tag(e,g) -> tag(e,9); frame(e) -> flat(e,f), tag(e,g)
    restrains: flat(e,g) -> flat(e,9); frame(e) -> flat(e,f), tag(e,g)
";

/// Alternatives that come too early, on the facts on which the first rule is applied: there must be none at all.
const EARLY: &str = "
    # they are not asked about
    restrains not: flat(e,8) -> flat(e,9); frame(e) -> flat(e,f)
    # one that there is in general rules the pair out, though it is none where some value equals the null; or only the
    # first value is tried
    restrains: flat(e,f) -> flat(e,9); frame(e) -> flat(e,f)
    # only the last value is tried
    restrains: flat(f,e) -> flat(9,e); frame(e) -> flat(f,e)
    # only one value is made equal to a null
    restrains: flat(e,f), link(e,g) -> flat(e,9); frame(e) -> flat(e,f), link(e,g)
    # only those are asked about that leave out the same null
    restrains not: seen(e,f) -> flat(e,f), mark(f); frame(e) -> flat(e,f), flat(e,g), mark(f)
    # only the one that is found later is asked about
    restrains not: master(e,f) -> flat(e,f); frame(e) -> flat(e,f), flat(e,g)
    # they are sought without the facts that the second rule matches
    restrains not: master(e,f) -> tag(e,f); frame(e), flat(e,h) -> flat(e,f), tag(e,g)
    # they are sought without the second rule's head
    restrains not: master(e,f) -> tag(e,f); frame(e) -> tag(e,f), flat(e,g), flat(e,h)
    # they are sought without the facts that the first rule matches
    restrains not: flat(e,8), flat(e,f) -> flat(e,9); frame(e) -> flat(e,f)
    # they are sought without the other facts
    restrains not: big(e) -> flat(e,e); frame(e) -> flat(e,f), mark(f,e), mark(g,g)
    # universal variables are free to take other values
    restrains: master(e,f), flat(7,7) -> flat(e,f); frame(e) -> flat(e,f)
    # each head atom is sought by itself
    restrains: flat(e,7), mark(f) -> flat(e,f); frame(e) -> flat(e,f), mark(f)
";

/// The most that rules can hold: six body atoms, four head atoms, four existential variables, twelve variables.
const LARGEST: &str = "
    # eleven facts
    relies: p(a,b), p(b,c), p(c,d), p(d,e), p(e,f), p(f,g) -> q(a,g); q(a,b), r(b,c), r(c,d), r(d,e), r(e,f), r(f,g) -> s(a,g)
    # four new atoms in a ring, from four head atoms
    relies: p(a,b), p(c,d), p(e,f), p(g,h), s(a), s(h) -> q(a,i,j), q(c,j,k), q(e,k,l), q(g,l,i); q(a,i,j), q(b,j,k), q(c,k,l), q(d,l,i), s(a), s(d) -> t(a,i,w), t(b,j,x), t(c,k,y), t(d,l,z)
    # the sixth atom fails
    relies not: p(a,b), p(c,d), p(e,f), p(g,h), s(a), s(h) -> q(a,i,j), q(c,j,k), q(e,k,l), q(g,l,i); q(a,i,j), q(b,j,k), q(c,k,l), q(d,l,i), s(a), s(i) -> t(a,i,w), t(b,j,x), t(c,k,y), t(d,l,z)
    # the fourth existential variable, which is variable 11, is taken for universal
    relies not: p(a,b,c,d), p(e,f,g,h) -> q(i,j,k,l); q(i,j,k,l), p(l,l,l,l) -> s(l)
    relies: p(a,b,c,d), p(e,f,g,h) -> q(i,j,k,l); q(i,j,k,l), p(a,b,c,d) -> s(l,l)
    # six facts, and nine besides
    restrains: p(a,b), p(b,c), p(c,d), p(d,e), p(e,f), p(f,g) -> q(a,g); r(a,b), r(b,c), r(c,d), r(d,e), r(e,f), s(f,g,l) -> q(a,h), r(h,i), r(i,j), r(j,k)
    # two new atoms and two old ones in a ring of four nulls
    restrains: ring(f,g) -> ring(g,f); frame(e) -> ring(f,g), ring(g,h), ring(h,i), ring(i,f)
    # an alternative that leaves out the null of variable 11 is not seen, or not seen where it comes too early
    restrains: master(e) -> q(9,e); p(a,b,c,d), p(e,f,g,h) -> r(a,i), s(a,j), t(a,k), q(l,a)
    restrains not: master(e,f) -> r(e,f); p(a,b,c,d), p(e,f,g,h), t(a,h) -> r(a,i), s(a,j), q(a,k), t(a,l)
    # alternatives that come too early are not asked about; here they leave out up to three nulls of four
    restrains not: master(e,f) -> q(e,f); frame(e) -> q(e,f), q(e,g), q(e,h), q(e,i)
";

#[test]
fn reliance_supply(rt: HostRuntime) -> Result<(), Fail> {
    expect_pairs(&rt, rt.alloc(), RELIANCE_SUPPLY)
}

#[test]
fn reliance_nulls(rt: HostRuntime) -> Result<(), Fail> {
    expect_pairs(&rt, rt.alloc(), RELIANCE_NULLS)
}

#[test]
fn reliance_first(rt: HostRuntime) -> Result<(), Fail> {
    expect_pairs(&rt, rt.alloc(), RELIANCE_FIRST)
}

#[test]
fn reliance_second(rt: HostRuntime) -> Result<(), Fail> {
    expect_pairs(&rt, rt.alloc(), RELIANCE_SECOND)
}

#[test]
fn terms(rt: HostRuntime) -> Result<(), Fail> {
    expect_pairs(&rt, rt.alloc(), TERMS)
}

#[test]
fn restraint_supply(rt: HostRuntime) -> Result<(), Fail> {
    expect_pairs(&rt, rt.alloc(), RESTRAINT_SUPPLY)
}

#[test]
fn restraint_nulls(rt: HostRuntime) -> Result<(), Fail> {
    expect_pairs(&rt, rt.alloc(), RESTRAINT_NULLS)
}

#[test]
fn restraint_satisfied(rt: HostRuntime) -> Result<(), Fail> {
    expect_pairs(&rt, rt.alloc(), RESTRAINT_SATISFIED)
}

#[test]
fn spared(rt: HostRuntime) -> Result<(), Fail> {
    expect_pairs(&rt, rt.alloc(), SPARED)
}

#[test]
fn early(rt: HostRuntime) -> Result<(), Fail> {
    expect_pairs(&rt, rt.alloc(), EARLY)
}

#[test]
fn largest(rt: HostRuntime) -> Result<(), Fail> {
    expect_pairs(&rt, rt.alloc(), LARGEST)
}
