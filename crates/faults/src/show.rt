//! How refusals are printed.
ghost use Rattle.std.specs.Prelude.{Some};
ghost use Rattle.std.specs.Fmt.{WritesOnOk};
ghost use Rattle.faults.specs.Text.{refusal_text};
ghost use Rattle.faults.specs.Faults.{fault_text};
ghost use Rattle.faults.specs.Shelves.{shelf_text};
ghost use Rattle.faults.specs.Sources.{source_text};
ghost use Rattle.faults.specs.Lines.{line_fault_text};

use crate::{Fault, LineFault, ShelfFault, SourceFault};
use std::error::Error;
use std::fmt;

/// The one form that every refusal is printed in.
fn show<W: fmt::Write>(
    number: u8,
    rank: u8,
    index: usize,
    place: usize,
    f: &mut fmt::Formatter<W>,
) -> fmt::Result
    ensures { WritesOnOk W.write_str_gives f.old result (refusal_text number rank index place) f.new }
{
    write!(f, "X {number} {rank} {index} {place}")
}

impl fmt::Display for Fault {
    ghost output = { λ f. Some (fault_text f) };

    fn fmt<W: fmt::Write>(&self, f: &mut fmt::Formatter<W>) -> fmt::Result {
        show(
            self.number(),
            self.rank(),
            usize::from(self.index),
            self.place,
            f,
        )
    }
}

impl fmt::Display for ShelfFault {
    ghost output = { λ f. Some (shelf_text f) };

    fn fmt<W: fmt::Write>(&self, f: &mut fmt::Formatter<W>) -> fmt::Result {
        show(self.number(), self.rank(), self.index(), self.place(), f)
    }
}

impl fmt::Display for SourceFault {
    ghost output = { λ f. Some (source_text f) };

    fn fmt<W: fmt::Write>(&self, f: &mut fmt::Formatter<W>) -> fmt::Result {
        show(self.number(), self.rank(), self.index(), self.place(), f)
    }
}

impl fmt::Display for LineFault {
    ghost output = { λ f. Some (line_fault_text f) };

    fn fmt<W: fmt::Write>(&self, f: &mut fmt::Formatter<W>) -> fmt::Result {
        show(self.number(), self.rank(), self.index(), self.place(), f)
    }
}

// What `?` needs to hand a refusal on out of a program.
impl Error for Fault {}

impl Error for ShelfFault {}

impl Error for SourceFault {}

impl Error for LineFault {}
