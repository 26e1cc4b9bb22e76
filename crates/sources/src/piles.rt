//! What any calls of `apply` leave an addition with, and what is then found on it. An addition is a source, so this holds
//! of piles of any height.
ghost use Rattle.std.specs.Prelude.{◌≡◌, ◌++◌};
ghost use Rattle.rules.specs.Rules.{meaning};
ghost use Rattle.sources.specs.Additions.{own_facts};
ghost use Rattle.sources.specs.Finding.{Found};
ghost use Rattle.sources.specs.Piles.{OwnAfter};

use crate::addition::Addition;
use crate::finding::find;
use crate::source::FactSource;
use rules::{Rule, Term};

/// A call of `apply`: a rule, and what its universal variables are given.
#[derive(Clone, Copy)]
pub struct Application {
    pub rule: Rule,
    pub found: [Term; 12],
}

/// An addition over the source, after these calls of `apply` on it.
fn applied<S: FactSource>(below: S, calls: &[Application]) -> Addition<S>
    ensures below { result.below ≡ below }
    ensures own { OwnAfter (S.facts below) calls.now (own_facts result.own) }
{
    let mut addition = Addition::new(below);
    for call in calls {
        // A call that is declined changes nothing.
        let _ = addition.apply(&call.rule, &call.found);
    }
    addition
}

/// An addition over the source, after these calls of `apply` on it, and what `find` answers there.
pub fn find_after<S: FactSource>(
    below: S,
    calls: &[Application],
    rule: &Rule,
    stack: &mut [u16; 6],
    found: &mut [Term; 12],
) -> (Addition<S>, bool)
    ensures below { result.0.below ≡ below }
    ensures own { OwnAfter (S.facts below) calls.now (own_facts result.0.own) }
    ensures means { ⟦<Addition<S> as FactSource>⟧.facts result.0 ≡ S.facts below ++ own_facts result.0.own }
    ensures answer { Found (meaning rule.now) (S.facts below ++ own_facts result.0.own) stack.old found.old result.1 stack.new found.new }
{
    let addition = applied(below, calls);
    let answer = find(rule, &addition, stack, found);
    (addition, answer)
}
