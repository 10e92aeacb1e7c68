// Digits: the numbers that they write, and a digit written so that it is read back as it was.
#![tactic(auto)]

mod numbers;
mod written;

pub use numbers::{above, below, both, decimal, pair};
pub use written::digit;
