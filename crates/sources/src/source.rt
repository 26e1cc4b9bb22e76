//! What a source of facts is.
ghost use Rattle.std.specs.Prelude.{◌≡◌, List, length};
ghost use Rattle.rules.specs.Logic.{Formula};
ghost use Rattle.sources.specs.Sources.{FewFacts, FactAt};

use faults::SourceFault;
use rules::Atom;

/// A source of facts: a list of at most 4,096 of them. Whatever keeps this meaning is a source, and all code above sees no
/// more of it.
pub trait FactSource {
    // The facts, in order, and that they are few.
    ghost facts: { Self → List Formula };

    ghost few: { (s : Self) → FewFacts (facts s) };

    /// How many facts there are.
    fn count(&self) -> usize
        ensures { result ≡ length (facts self.now) };

    /// The fact of an index from 0, or refusal 17 where there are not so many.
    fn fact(&self, index: usize) -> Result<Atom, SourceFault>
        ensures { FactAt (facts self.now) index result };
}

/// A reference to a source is one too, so that a source can be lent to an addition.
impl<S: FactSource> FactSource for &S {
    ghost facts = { λ s. S.facts s.now };

    ghost few = { λ s. S.few s.now };

    fn count(&self) -> usize {
        S::count(*self)
    }

    fn fact(&self, index: usize) -> Result<Atom, SourceFault> {
        S::fact(*self, index)
    }
}
