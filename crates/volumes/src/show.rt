ghost use Rattle.std.specs.Prelude.{Some};
ghost use Rattle.volumes.specs.Answers.{taken};
ghost use Rattle.volumes.specs.Volumes.{numbered};
ghost use Rattle.volumes.specs.Text.{lines, numbered_text};

use crate::rule_volume::NumberedRule;
use crate::volume::{Entries, Volume};
use std::fmt;

impl fmt::Display for NumberedRule {
    ghost output = { λ x. Some (numbered_text (numbered x)) };

    fn fmt<W: fmt::Write>(&self, f: &mut fmt::Formatter<W>) -> fmt::Result {
        let NumberedRule { number, rule } = self;
        write!(f, "{number}: {rule}")
    }
}

impl<'a, E: Entries> fmt::Display for Volume<'a, E> {
    ghost output = { λ v. Some (lines E.text (taken (E.read v.bytes.now))) };

    fn fmt<W: fmt::Write>(&self, f: &mut fmt::Formatter<W>) -> fmt::Result {
        // By index, since that is how an entry is had.
        for i in 0..self.count {
            let entry = E::entry(self, i).unwrap();
            writeln!(f, "{entry}")?;
        }
        Ok(())
    }
}
