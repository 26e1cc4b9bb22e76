// How many terms the atoms of a rule have. Nothing is computed: a rule keeps the arities, and an array has all its terms.
ghost use Rattle.rules.specs.Logic.{Each};
ghost use Rattle.rules.specs.Rules.{meaning};
ghost use Rattle.matches.specs.Lists.{Whole, Sizes};

use rules::{Atom, Rule};

/// Each atom of a rule has one to four terms.
pub fn sized(rule: &Rule)
    ensures { Sizes (meaning rule.now) }
{
    whole_atoms(rule.body());
    whole_atoms(rule.head());
}

fn whole_atoms(atoms: &[Atom])
    ensures { Each Whole atoms.now }
{
    for a in atoms {
        whole(*a);
    }
}

fn whole(a: Atom)
    ensures { Whole a }
{}
