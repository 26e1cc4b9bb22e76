//! Shelves filled rule by rule, and what their calls are answered.
#![tactic(auto)]

#[cfg(test)]
mod archive;
#[cfg(test)]
mod asking;
#[cfg(test)]
mod build;
#[cfg(test)]
mod expect;
#[cfg(test)]
mod grading;
#[cfg(test)]
mod holding;
#[cfg(test)]
mod page;
#[cfg(test)]
mod runs;
