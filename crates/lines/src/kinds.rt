//! What a line of a listing says.
use faults::Fault;

/// A line of a listing. Rules go by their numbers.
#[derive(Clone, Copy, PartialEq, Eq, Debug)]
pub enum Line {
    /// The second rule positively relies on the first.
    Positive { first: u16, second: u16 },
    /// The first rule restrains the second.
    Restraint { first: u16, second: u16 },
    /// A rule's grade.
    Grade { rule: u16, grade: u8 },
    /// The rules have no numbering.
    NoGrades,
    /// The volume is declined.
    Declined(Fault),
}
