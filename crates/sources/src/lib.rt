//! Sources of facts: what all of them mean, three kinds of them, the search for a rule's matches on any of them, and what a
//! rule that is applied there adds.
#![tactic(auto)]

mod addition;
mod addition_source;
mod applying;
mod finding;
mod known;
mod matching;
mod nulls;
mod numbering;
mod own_facts;
mod piles;
mod row_source;
mod row_table;
mod rows;
mod search;
mod source;
#[cfg(test)]
mod tests;
mod volume_source;

pub use addition::Addition;
pub use finding::find;
pub use matching::{first_match, is_satisfied, next_match};
pub use piles::{Application, find_after};
pub use row_table::RowTable;
pub use rows::check_rows;
pub use source::FactSource;

/// How many facts a source has at most.
pub const MOST: usize = 4096;
