// Rows selected from the schedule's table (document 01, "Schedule rules"): those of a window of time, and the one that a deletion by
// request ID takes.
#![tactic(auto)]

use time::Moment;

pub mod find;
pub mod window;

// A window of time. Both ends belong to it.
#[derive(Clone, Copy)]
pub enum MomentWindow {
    All,
    FromTo(Moment, Moment),
    From(Moment),
    To(Moment),
}

// Rows of the table: the first, and how many. Where there are none, row 0.
#[derive(Clone, Copy)]
pub struct Part {
    pub first: usize,
    pub number: usize,
}
