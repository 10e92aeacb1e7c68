// A shift report in words: a request with its answer, the records of a release log, and the totals of a shift.
#![tactic(auto)]

pub mod answers;
pub mod clock;
pub mod records;
mod refusals;
pub mod totals;
