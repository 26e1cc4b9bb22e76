//! How a line is printed, without the newline.
ghost use Rattle.std.specs.Prelude.{Some};
ghost use Rattle.lines.specs.Lines.{line_text};

use crate::Line;
use std::fmt;

impl fmt::Display for Line {
    ghost output = { λ l. Some (line_text l) };

    fn fmt<W: fmt::Write>(&self, f: &mut fmt::Formatter<W>) -> fmt::Result {
        match *self {
            Line::Positive { first, second } => write!(f, "P {first} {second}"),
            Line::Restraint { first, second } => write!(f, "R {first} {second}"),
            Line::Grade { rule, grade } => write!(f, "G {rule} {grade}"),
            Line::NoGrades => f.write_str("G -"),
            Line::Declined(fault) => write!(f, "{fault}"),
        }
    }
}
