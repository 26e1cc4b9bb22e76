//! How long something takes, by a program's own clock.
#![tactic(auto)]

mod work;

pub use work::{Work, time};
