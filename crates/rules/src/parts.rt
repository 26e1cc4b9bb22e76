ghost use Rattle.std.specs.Prelude.{◌≡◌, true, map};
ghost use Rattle.rules.specs.Logic.{formula_of, implication_of};
ghost use Rattle.rules.specs.Bounds.{every, some, has?, plain?, rule_atom?, universal?, existential?, FlagsAre, body_of, head_of};
ghost use Rattle.rules.specs.Flags.{rule_atoms?};

use crate::flags::{flags_of, only_in};
use crate::{Atom, Term, first};

/// The parts of a rule before anything is checked: the first `bodies` and the first `heads` atoms count.
#[derive(Clone, Copy)]
pub struct RuleParts {
    // Arrays with their counts beside: nothing is allocated, and the parts are `Copy`, as an `Atom` is.
    pub body: [Atom; 6],
    pub bodies: u8,
    pub head: [Atom; 4],
    pub heads: u8,
}

impl RuleParts {
    /// No atoms: a place to read a rule into.
    pub const BLANK: RuleParts = RuleParts {
        body: [Atom::BLANK; 6],
        bodies: 0,
        head: [Atom::BLANK; 4],
        heads: 0,
    };

    // Two names for two fields; what reads them is `first`.
    /// The body atoms that count.
    pub(crate) fn body(&self) -> &[Atom]
        ensures { result.now ≡ body_of self.now }
    {
        first(&self.body, self.bodies)
    }

    /// The head atoms that count.
    pub(crate) fn head(&self) -> &[Atom]
        ensures { result.now ≡ head_of self.now }
    {
        first(&self.head, self.heads)
    }

    /// Whether there are as many atoms as a rule may have, and each is one that it may have.
    pub(crate) fn have_rule_atoms(&self) -> bool
        ensures { result ≡ rule_atoms? self.now }
    {
        1 <= self.bodies
            && self.bodies <= 6
            && 1 <= self.heads
            && self.heads <= 4
            && are_rule_atoms(self.body())
            && are_rule_atoms(self.head())
    }

    /// The flags of the universal variables.
    pub(crate) fn flag_universal(&self) -> [bool; 12]
        requires { rule_atoms? self.now ≡ true }
        ensures { FlagsAre result (universal? (implication_of self.now)) }
    {
        flags_of(self.body())
    }

    /// The flags of the existential variables, by those of the universal ones.
    pub(crate) fn flag_existential(&self, universal: &[bool; 12]) -> [bool; 12]
        requires atoms { rule_atoms? self.now ≡ true }
        requires universal { FlagsAre universal.now (universal? (implication_of self.now)) }
        ensures { FlagsAre result (existential? (implication_of self.now)) }
    {
        only_in(&flags_of(self.head()), universal)
    }
}

/// Whether the variable stands in one of the atoms.
pub(crate) fn have(atoms: &[Atom], v: u16) -> bool
    ensures { result ≡ some (has? v) (map formula_of atoms.now) }
{
    atoms.iter().any(|a| a.has(v))
}

fn is_plain(t: &Term) -> bool
    ensures { result ≡ plain? t.now }
{
    match *t {
        Term::Constant(_) => true,
        Term::Variable(n) => n <= 11,
        Term::Null(_) => false,
    }
}

fn is_rule_atom(a: &Atom) -> bool
    ensures { result ≡ rule_atom? a.now }
{
    1 <= a.arity && a.arity <= 4 && are_plain(a.args())
}

fn are_plain(terms: &[Term]) -> bool
    ensures { result ≡ every plain? terms.now }
{
    terms.iter().all(is_plain)
}

fn are_rule_atoms(atoms: &[Atom]) -> bool
    ensures { result ≡ every rule_atom? atoms.now }
{
    atoms.iter().all(is_rule_atom)
}
