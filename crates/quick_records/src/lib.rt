// The quick ways over a sheet: its records that are told at a glance, of a level and of the targets of a series.
#![tactic(auto)]

pub mod quick; // quick.rt: the quick way over a level
pub mod targets; // targets.rt: the quick way over the targets of a series
