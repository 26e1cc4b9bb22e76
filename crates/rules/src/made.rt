ghost use Rattle.std.specs.Prelude.{◌≡◌, Decides};
ghost use Rattle.rules.specs.Logic.{Universal, Existential};
ghost use Rattle.rules.specs.Bounds.{body_of, head_of, MakesRule, Rearranged, FlagsAre, near?, universal?, existential?};
ghost use Rattle.rules.specs.Rules.{MadeOf, meaning, order_of};

use crate::flags::count_flags;
use crate::marks::{have_common, marks_of};
use crate::order::arranged;
use crate::{Atom, Rule, RuleParts, first, is_flagged};

impl Rule {
    /// The rule that has these parts, or none where they make no rule.
    pub fn new(parts: RuleParts) -> Option<Rule>
        ensures { MadeOf parts result }
    {
        if !parts.have_rule_atoms() {
            return None;
        }
        let universal = parts.flag_universal();
        let existential = parts.flag_existential(&universal);
        if count_flags(&existential) > 4 {
            return None;
        }
        Some(Rule {
            parts,
            universal,
            existential,
            order: arranged(&parts, &existential),
            body_marks: marks_of(parts.body()),
            head_marks: marks_of(parts.head()),
        })
    }

    /// The parts that the rule was made from.
    pub fn parts(&self) -> RuleParts
        ensures same { result ≡ self.now.parts }
        ensures kept { MakesRule result }
    {
        let Rule { parts, .. } = *self;
        parts
    }

    // Two names for two fields, as in the parts.
    pub fn body(&self) -> &[Atom]
        ensures same { result.now ≡ body_of self.now.parts }
        ensures kept { MakesRule self.now.parts }
    {
        self.parts.body()
    }

    pub fn head(&self) -> &[Atom]
        ensures same { result.now ≡ head_of self.now.parts }
        ensures kept { MakesRule self.now.parts }
    {
        self.parts.head()
    }

    /// The head's atoms in the order in which a search best maps them into facts.
    pub fn search_order(&self) -> &[Atom]
        ensures same { result.now ≡ order_of self.now }
        ensures kept { Rearranged (head_of self.now.parts) result.now }
    {
        first(&self.order, self.parts.heads)
    }

    /// Whether the remainders by 64 of a predicate in this rule's head and of one in the other rule's body are the same. A no
    /// is quick, and tells that they have no predicate in common.
    pub fn may_meet_body(&self, other: &Rule) -> bool
        ensures { result ≡ near? (meaning self.now).head (meaning other.now).body }
    {
        have_common(self.head_marks, other.body_marks)
    }

    /// The same of a predicate in the other rule's head.
    pub fn may_meet_head(&self, other: &Rule) -> bool
        ensures { result ≡ near? (meaning self.now).head (meaning other.now).head }
    {
        have_common(self.head_marks, other.head_marks)
    }

    /// Whether the variable stands in the body.
    pub fn is_universal(&self, v: u16) -> bool
        ensures value { result ≡ universal? (meaning self.now) v }
        ensures decides { Decides result (Universal (meaning self.now) v) }
    {
        is_flagged(&self.universal, v)
    }

    /// The flags of the existential variables.
    pub fn existential_flags(&self) -> &[bool; 12]
        ensures { FlagsAre result.now (existential? (meaning self.now)) }
    {
        &self.existential
    }

    /// Whether the variable stands in the head, and not in the body.
    pub fn is_existential(&self, v: u16) -> bool
        ensures value { result ≡ existential? (meaning self.now) v }
        ensures decides { Decides result (Existential (meaning self.now) v) }
    {
        is_flagged(&self.existential, v)
    }
}
