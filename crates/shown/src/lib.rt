// Answers and refusals as words on standard output, for the test programs.
#![tactic(auto)]

mod answers;
mod refusals;
mod stored;

pub use answers::{cleared, counted, done, freed, inserted, retrieved, taken, ticked};
pub use stored::{added, deleted, length, presence, started, verdict};
