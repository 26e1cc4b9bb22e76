//! Relations between 64 slots, which are numbered from 0 to 63, and the least numbering of slots that keeps two of them.
#![tactic(auto)]

mod numbering;
mod pairs;
mod slots;

pub use numbering::least_numbering;
pub use pairs::Pairs;
pub use slots::Slots;
