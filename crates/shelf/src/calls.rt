//! Calls on a shelf, and what they are answered.
use crate::grading::PairCounts;
use faults::ShelfFault;
use reliances::{Kind, Sheet};
use volumes::RuleVolume;

/// A call on a shelf.
#[derive(Clone, Copy)]
pub enum Call<'a> {
    Admit {
        volume: RuleVolume<'a>,
        index: usize,
    },
    Withdraw {
        number: u16,
    },
    Ask {
        kind: Kind,
        first: u16,
        second: u16,
    },
    Verify {
        kind: Kind,
        first: u16,
        second: u16,
        sheet: &'a Sheet,
    },
    Grade,
}

/// The answer to a call.
#[derive(Clone, Copy)]
pub enum Answer {
    /// A rule is admitted or withdrawn.
    Done,
    Refused(ShelfFault),
    /// The relation holds, and the sheet shows it.
    Yes(Sheet),
    /// The relation does not hold.
    No,
    /// Whether the sheet meets the definition.
    Verified(bool),
    /// The numbers, by rising rule number, then 0.
    Graded {
        counts: PairCounts,
        grades: [u8; 64],
    },
}
