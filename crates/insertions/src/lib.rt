// The insertions by bytes (document 01, module 5): a command of a release time is read, and goes to the store and to the schedule.
#![tactic(auto)]

pub mod inserting;
