//! What programs are given: a volume on standard input, and how often they do what they time.
#![tactic(auto)]

mod input;
mod rounds;

pub use input::read_volume;
pub use rounds::read_rounds;
