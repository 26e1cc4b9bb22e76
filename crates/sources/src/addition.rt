//! Facts that are laid over a source.
ghost use Rattle.std.specs.Prelude.{◌≡◌, ◌≤◌, length, []};
ghost use Rattle.rules.specs.Logic.{Each};
ghost use Rattle.matches.specs.Lists.{FactAtom};
ghost use Rattle.sources.specs.Additions.{own_atoms, own_facts};

use crate::own_facts::OwnFacts;
use crate::source::FactSource;
use rules::Atom;

/// A source that is laid over another one and holds up to four facts of its own. What lies below does not change.
#[derive(Drop)]
pub struct Addition<S: FactSource> {
    pub(crate) below: S,
    pub(crate) own: OwnFacts,
}

impl<S: FactSource> Addition<S> {
    /// An addition that holds no facts of its own.
    pub fn new(below: S) -> Addition<S>
        ensures same { ⟦<Addition<S> as FactSource>⟧.facts result ≡ S.facts below }
        ensures below { result.below ≡ below }
        ensures own { own_facts result.own ≡ [] }
    {
        Addition {
            below,
            own: OwnFacts::NONE,
        }
    }

    /// Replaces the addition's own facts.
    pub(crate) fn hold(&mut self, facts: &[Atom])
        requires few { length facts.now ≤ 4 }
        requires facts { Each FactAtom facts.now }
        ensures below { self.new.below ≡ self.old.below }
        ensures own { own_atoms self.new.own ≡ facts.now }
    {
        self.own = OwnFacts::of(facts);
    }
}
