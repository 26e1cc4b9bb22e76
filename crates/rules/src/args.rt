ghost use Rattle.std.specs.Prelude.{◌≡◌, [], take, Decides};
ghost use Rattle.std.specs.Cmp.Lexicographic.{pointwise};
ghost use Rattle.rules.specs.Logic.{formula_of};
ghost use Rattle.rules.specs.Bounds.{is_variable?, has?, flags};
ghost use Rattle.rules.specs.Same.{same_term?, same_atom?, same_atom_laws};

use crate::{Atom, Term};

impl Atom {
    /// What stands in a place that holds no atom yet.
    pub const BLANK: Atom = Atom {
        predicate: 0,
        arity: 0,
        terms: [Term::Constant(0); 4],
    };

    /// The terms that count: as many as the arity says, or all four.
    pub fn args(&self) -> &[Term]
        ensures { result.now ≡ (formula_of self.now).terms }
    {
        first(&self.terms, self.arity)
    }

    /// Whether the variable is one of the terms that count.
    pub(crate) fn has(&self, v: u16) -> bool
        ensures { result ≡ has? v (formula_of self.now) }
    {
        // No `contains` and no `==` of slices here: these go by groups of eight terms, and an atom has four at most.
        self.args().iter().any(|t| is_variable(t, v))
    }
}

fn is_variable(t: &Term, v: u16) -> bool
    ensures { result ≡ is_variable? v t.now }
{
    *t == Term::Variable(v)
}

/// Whether the lists have the same terms.
fn are_same(xs: &[Term], ys: &[Term]) -> bool
    ensures { result ≡ pointwise same_term? xs.now ys.now }
{
    if xs.len() != ys.len() {
        return false;
    }
    // By index, and no `zip`: together with how `first` cuts, the compiler then sees that a fourth term is the last, and
    // tests for no end after it.
    for i in 0..xs.len() {
        if xs[i] != ys[i] {
            return false;
        }
    }
    true
}

/// The flag of a number; past the list none is set.
pub fn is_flagged(list: &[bool], n: u16) -> bool
    ensures { result ≡ flags list.now n }
{
    list.get(n as usize).copied().unwrap_or(false)
}

/// The first `n` of the elements, or all of them.
pub fn first<T>(xs: &[T], n: u8) -> &[T]
    ensures { result.now ≡ take n xs.now }
{
    // The lesser length, and no `get`: for the loop of `are_same`.
    &xs[..xs.len().min(n as usize)]
}

/// An atom of no terms.
impl Default for Atom {
    ghost is_default = { λ a. formula_of a ≡ record { predicate = 0; terms = [] } };

    fn default() -> Atom {
        Atom::BLANK
    }
}

/// Two atoms are equal where they have the same predicate and the same terms up to their arity. A derive would compare
/// the terms past it too.
impl PartialEq for Atom {
    ghost eq = { same_atom? };

    ghost laws = { same_atom_laws };

    fn eq(&self, other: &Atom) -> bool
        ensures value { result ≡ same_atom? self.now other.now }
        ensures decides { Decides result (formula_of self.now ≡ formula_of other.now) }
    {
        self.predicate == other.predicate && are_same(self.args(), other.args())
    }
}
