//! The two relations between rules, decided for any two rules and shown by a sheet of facts.
#![tactic(auto)]

ghost use Rattle.reliances.specs.Marked.{MarkedPairs};

mod asking;
mod early;
mod lists;
mod reliance_search;
mod restraint_search;
mod search;
mod sheet;
mod substitution;
mod unifier;
mod verification;

pub use asking::ask;
pub use sheet::{Kind, Sheet};
pub use verification::verify;

/// What is said of the marked pairs of rules is right. Nothing is computed: the contract is the statement.
pub fn marked_pairs()
    ensures { MarkedPairs }
{}
