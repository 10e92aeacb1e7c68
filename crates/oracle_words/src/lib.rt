// A line of the original's answers: what is lent to the library for it, and its answer compared, word for word, with what the library gave.
#![tactic(auto)]

pub mod answers;
mod records;
pub mod said;
mod slots;
pub mod states;
pub mod tables;
