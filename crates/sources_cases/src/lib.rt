//! Tables of facts and rows, each as every kind of source, of rules with their matches on them, and of what rules add to
//! them.
#![tactic(auto)]

#[cfg(test)]
mod applied;
#[cfg(test)]
mod build;
#[cfg(test)]
mod expect;
#[cfg(test)]
mod facts;
#[cfg(test)]
mod finding;
#[cfg(test)]
mod found;
#[cfg(test)]
mod piles;
#[cfg(test)]
mod rows;
#[cfg(test)]
mod seen;
