// What the test programs share: input read, the words of a line, and text, numbers, times and bytes written.
#![tactic(auto)]

pub mod form;
pub mod input;
pub mod line;
pub mod out;
