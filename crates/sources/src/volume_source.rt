//! A fact volume is a source.
ghost use Rattle.volumes.specs.Volumes.{facts_of};
ghost use Rattle.sources.specs.VolumeFacts.{few_volume};

use crate::source::FactSource;
use faults::SourceFault;
use rules::Atom;
use volumes::{Facts, Volume};

impl<'a> FactSource for Volume<'a, Facts> {
    ghost facts = { λ v. facts_of v.bytes.now };

    ghost few = { λ v. few_volume v.bytes.now };

    fn count(&self) -> usize {
        Volume::count(self)
    }

    // Its place stands in the contents, so nothing else of the volume is read.
    fn fact(&self, index: usize) -> Result<Atom, SourceFault> {
        if let Some(fact) = Volume::fact(self, index) {
            Ok(fact)
        } else {
            Err(SourceFault::NoFact { index })
        }
    }
}
