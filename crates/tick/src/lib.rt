// The release tick (document 01; the original's `release_telecommands`): due entries leave the schedule, and a log says what became of each.
#![tactic(auto)]

pub mod judged;

// How many entries were handed out, and how many due ones remain.
#[derive(Clone, Copy)]
pub struct Handed {
    pub m: usize,
    pub remain: usize,
}
