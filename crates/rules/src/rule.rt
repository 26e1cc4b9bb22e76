ghost use Rattle.std.specs.Prelude.{◌≡◌, true, take};
ghost use Rattle.rules.specs.Logic.{implication_of};
ghost use Rattle.rules.specs.Bounds.{makes_rule?, universal?, existential?, FlagsAre, MarksAre, head_of, Rearranged};

use crate::{Atom, RuleParts};

/// A rule: one to six body atoms, one to four head atoms, each of one to four terms, its variables numbered 0 to 11,
/// at most four of them existential. Made by `Rule::new`, which checks the parts, so that nothing later has to.
#[derive(Clone, Copy)]
pub struct Rule {
    pub(crate) parts: RuleParts,
    // Which variables are universal, and which existential: told once, since every judgment asks it.
    pub(crate) universal: [bool; 12],
    pub(crate) existential: [bool; 12],
    // The head's atoms once more, in the order in which a search maps them.
    pub(crate) order: [Atom; 4],
    // The marks of the predicates in the body, and in the head.
    pub(crate) body_marks: u64,
    pub(crate) head_marks: u64,
    ghost kept: { makes_rule? parts ≡ true },
    ghost same_head: { Rearranged (head_of parts) (take parts.heads order) },
    ghost in_body_marks: { MarksAre (implication_of parts).body body_marks },
    ghost in_head_marks: { MarksAre (implication_of parts).head head_marks },
    ghost in_body: { FlagsAre universal (universal? (implication_of parts)) },
    ghost only_in_head: { FlagsAre existential (existential? (implication_of parts)) },
}
