//! Tables of volumes with what the check answers for them and what is taken up of them. A loop over a range in here gives
//! lengths or numbers to such a table, and indexes nothing.
#![tactic(auto)]

#[cfg(test)]
mod bounds;
#[cfg(test)]
mod build;
#[cfg(test)]
mod expect;
#[cfg(test)]
mod fact_faults;
#[cfg(test)]
mod order;
#[cfg(test)]
mod rule_faults;
#[cfg(test)]
mod taken;
