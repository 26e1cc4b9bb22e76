//! What is timed of a rule on a table, and what each answer says.
ghost use Rattle.std.specs.Prelude.{[], replicate};
ghost use Rattle.rules.specs.declared.Term.TheVariants.{Constant};
ghost use Rattle.rules.specs.Rules.{meaning};
ghost use Rattle.matches.specs.Lists.{look};
ghost use Rattle.sources.specs.Additions.{own_facts};
ghost use Rattle.sources.specs.Applying.{ApplyAnswer};
ghost use Rattle.sources.specs.Finding.{Found};

use faults::SourceFault;
use rules::{Rule, Term};
use sources::{Addition, FactSource, RowTable, find};
use timing::Work;

/// Whether a rule has a match that is not satisfied, with the rows and the values of the first.
#[derive(Clone, Copy)]
pub struct Finding<'a> {
    pub rule: &'a Rule,
    pub table: RowTable<'a>,
}

impl<'a> Work for Finding<'a> {
    type Answer = (bool, [u16; 6], [Term; 12]);

    ghost Right = { λ w r. Found (meaning w.rule.now) (⟦<RowTable<'a> as FactSource>⟧.facts w.table) (replicate 6 0) (replicate 12 (Constant 0)) r.0 r.1 r.2 };

    fn once(&self) -> (bool, [u16; 6], [Term; 12]) {
        let mut stack = [0; 6];
        let mut found = [Term::Constant(0); 12];
        let yes = find(self.rule, &self.table, &mut stack, &mut found);
        (yes, stack, found)
    }
}

/// The application of a rule, on a new addition.
#[derive(Clone, Copy)]
pub struct Applying<'a> {
    pub rule: &'a Rule,
    pub found: [Term; 12],
    pub table: RowTable<'a>,
}

impl<'a> Work for Applying<'a> {
    type Answer = (Result<(), SourceFault>, Addition<RowTable<'a>>);

    ghost Right = { λ w r. ApplyAnswer (meaning w.rule.now) (look w.found) (⟦<RowTable<'a> as FactSource>⟧.facts w.table) [] r.0 (own_facts r.1.own) };

    fn once(&self) -> (Result<(), SourceFault>, Addition<RowTable<'a>>) {
        let mut addition = Addition::new(self.table);
        let applied = addition.apply(self.rule, &self.found);
        (applied, addition)
    }
}
