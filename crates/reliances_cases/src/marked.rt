//! The marked pairs.
use crate::expect::expect_pairs;
use std::test::Fail;

const MARKED: &str = "
    relies: raw(e,s) -> frame(e,s); frame(e,s) -> flat(f,e)
    relies not: frame(e,s) -> flat(f,e); raw(e,s) -> frame(e,s)

    relies not: frame(e) -> uses(e,f); uses(e,e) -> odd(e)
    relies: frame(e) -> uses(f,f); uses(e,e) -> odd(e)

    relies not: p(x) -> q(x); q(x) -> p(x)
    relies not: q(x) -> p(x); p(x) -> q(x)

    relies: p(x,y), p(y,z) -> p(x,z); p(x,y), p(y,z) -> p(x,z)

    relies not: p(x,y) -> p(y,x); p(x,y) -> p(y,x)

    restrains: master(e,f) -> flat(e,f); frame(e) -> flat(e,f)
    restrains not: frame(e) -> flat(e,f); master(e,f) -> flat(e,f)

    restrains: flat(e,f) -> flat(e,9); frame(e) -> flat(e,f)

    restrains not: frame(e) -> flat(e,f), flat(e,g); frame(e) -> flat(e,f), flat(e,g)

    restrains not: frame(e) -> flat(e,f); frame(e) -> flat(e,f)
";

/// The two rules that no numbering keeps in order, in each order and each with itself: the first restrains the second, so it
/// has to be lower, and it positively relies on the second, so it must not be.
const UNNUMBERED: &str = "
    restrains: flat(e,f) -> flat(e,9); frame(e) -> flat(e,f)
    relies: frame(e) -> flat(e,f); flat(e,f) -> flat(e,9)

    relies not: flat(e,f) -> flat(e,9); frame(e) -> flat(e,f)
    restrains not: frame(e) -> flat(e,f); flat(e,f) -> flat(e,9)
    relies not: flat(e,f) -> flat(e,9); flat(e,f) -> flat(e,9)
    restrains not: flat(e,f) -> flat(e,9); flat(e,f) -> flat(e,9)
    relies not: frame(e) -> flat(e,f); frame(e) -> flat(e,f)
    restrains not: frame(e) -> flat(e,f); frame(e) -> flat(e,f)
";

#[test]
fn marked(rt: HostRuntime) -> Result<(), Fail> {
    expect_pairs(&rt, rt.alloc(), MARKED)
}

#[test]
fn unnumbered(rt: HostRuntime) -> Result<(), Fail> {
    expect_pairs(&rt, rt.alloc(), UNNUMBERED)
}
