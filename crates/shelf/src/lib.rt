//! A shelf of rules: which rules it holds, what is asked about them, and any list of such calls.
#![tactic(auto)]

mod asking;
mod calls;
mod grading;
mod holding;
mod runs;
mod shelf;

pub use calls::{Answer, Call};
pub use grading::PairCounts;
pub use runs::run;
pub use shelf::Shelf;
