//! The lines of a listing, and the call that puts one into a buffer.
#![tactic(auto)]

mod kinds;
mod put;
mod show;
#[cfg(test)]
mod tests;
mod text;

pub use kinds::Line;
pub use put::line;
