//! The number of the first new null.
ghost use Rattle.std.specs.Prelude.{◌≤◌};
ghost use Rattle.sources.specs.Applying.{FirstNew};
ghost use Rattle.sources.specs.Numbering.{LeastAbove};

use crate::source::FactSource;
use rules::Term;

/// The least number, from the one given on, that is above that of each null among the terms.
fn above(terms: &[Term], from: u32) -> u32
    requires { from ≤ 65536 }
    ensures least { LeastAbove terms.now from result }
    ensures small { result ≤ 65536 }
{
    let mut next = from;
    for term in terms {
        if let Term::Null(number) = *term {
            next = next.max(u32::from(number) + 1);
        }
    }
    next
}

/// One above the largest number of a null that stands in the facts, or 0 where none does.
pub(crate) fn first_new<S: FactSource>(source: &S) -> u32
    ensures first { FirstNew (S.facts source.now) result }
    ensures small { result ≤ 65536 }
{
    let mut next = 0;
    for index in 0..source.count() {
        if let Ok(fact) = source.fact(index) {
            next = above(fact.args(), next);
        }
    }
    next
}
