//! Tables of small relations with the numbering that is expected, and relations over all 64 slots.
#![tactic(auto)]

#[cfg(test)]
mod expect;
#[cfg(test)]
mod full;
#[cfg(test)]
mod small;
