//! An addition is a source, so that additions can be piled up.
ghost use Rattle.matches.specs.Lists.{formulas};
ghost use Rattle.sources.specs.Additions.{laid_over, own_atoms};
ghost use Rattle.sources.specs.Few.{few_laid, tested_facts};

use crate::MOST;
use crate::addition::Addition;
use crate::source::FactSource;
use faults::SourceFault;
use rules::Atom;

impl<S: FactSource> FactSource for Addition<S> {
    ghost facts = { λ a. laid_over (S.facts a.below) (formulas (own_atoms a.own)) };

    ghost few = { λ a. few_laid (S.facts a.below) (formulas (own_atoms a.own)) (S.few a.below).facts (tested_facts (own_atoms a.own) a.own.facts) };

    fn count(&self) -> usize {
        (self.below.count() + self.own.atoms().len()).min(MOST)
    }

    // Below first: a fact at the bottom of a pile is then had in one step for each layer, and nothing is counted.
    fn fact(&self, index: usize) -> Result<Atom, SourceFault> {
        if let Ok(fact) = self.below.fact(index) {
            return Ok(fact);
        }
        let own = self.own.atoms();
        let place = index - self.below.count();
        if index < MOST && place < own.len() {
            Ok(own[place])
        } else {
            Err(SourceFault::NoFact { index })
        }
    }
}
