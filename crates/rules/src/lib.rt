//! Terms, atoms and rules: the plain types, what they mean, and how they are printed.
#![tactic(auto)]

mod args;
mod flags;
mod made;
mod marks;
mod order;
mod parts;
mod rule;
mod show;

pub use args::{first, is_flagged};
pub use parts::RuleParts;
pub use rule::Rule;

/// What an atom is about.
#[derive(Clone, Copy, PartialEq, Eq)]
pub enum Term {
    /// A named thing.
    Constant(u16),
    /// A variable of a rule.
    Variable(u16),
    /// A thing that is not named (yet); a placeholder.
    Null(u16),
}

/// A predicate with its terms, of which the first `arity` count. Plain: nothing is checked.
#[derive(Clone, Copy)]
pub struct Atom {
    pub predicate: u16,
    pub arity: u8,
    // An array with its count beside: nothing is allocated, and an atom is `Copy`, which a list of fixed memory is not.
    pub terms: [Term; 4],
}
