//! Tables of pairs of rules with what is answered when a relation between them is asked about, and sheets with whether they
//! show one. A rule is written as `p(x,y), p(y,z) -> p(x,z)`: names are predicates, letters are variables, digits constants.
#![tactic(auto)]

#[cfg(test)]
mod easy;
#[cfg(test)]
mod expect;
#[cfg(test)]
mod marked;
#[cfg(test)]
mod mistakes;
#[cfg(test)]
mod sheets;
#[cfg(test)]
mod text;
