//! Judgments on short lists of facts: what is a match, whether it is satisfied or fresh, and the alternatives to an
//! application. An assignment is a list of terms, which gives variable i the term at place i.
#![tactic(auto)]

mod alternative;
mod facts;
mod filling;
mod fresh;
mod sizes;
mod slots;
mod trigger;

pub use facts::{are_facts, stands_in};
pub use filling::{atom_under, look_up};
pub use sizes::sized;
pub use trigger::Trigger;
