//! Rule volumes and fact volumes: their byte layout, the check that finds the first fault, and taking up what passed it.
#![tactic(auto)]

mod atom;
mod contents;
mod cursor;
mod fact_volume;
mod fields;
mod items;
mod kind;
mod rule;
mod rule_volume;
mod show;
mod term;
mod volume;

pub use fact_volume::{FactVolume, Facts, check_facts};
pub use items::{Item, Placed, RuleAtoms};
pub use rule_volume::{NumberedRule, RuleVolume, Rules, check_rules};
pub use volume::{Entries, Volume};
