// What a line of the original's answers asks, and how many values the answer has.
#![tactic(auto)]

ghost use Rattle.std.specs.Prelude.{◌≤◌};

// The original's calls, then what it shows of its whole state.
#[derive(Clone, Copy, PartialEq, Eq)]
pub enum Kind {
    New,
    Clock,
    Enable,
    Disable,
    Num,
    Wrapped,
    WrappedL,
    Unwrapped,
    UnwrappedT,
    Stored,
    Window,
    DelWin,
    DelAll,
    Reset,
    DelId,
    DelIdP,
    Release,
    Add,
    Read,
    Modify,
    Delete,
    Has,
    Len,
    Dump,
    Drain,
}

// Each with the word that stands first in its lines.
pub const KINDS: [(Kind, &str); 25] = [
    (Kind::New, "new"),
    (Kind::Clock, "clock"),
    (Kind::Enable, "enable"),
    (Kind::Disable, "disable"),
    (Kind::Num, "num"),
    (Kind::Wrapped, "wrapped"),
    (Kind::WrappedL, "wrappedl"),
    (Kind::Unwrapped, "unwrapped"),
    (Kind::UnwrappedT, "unwrappedt"),
    (Kind::Stored, "stored"),
    (Kind::Window, "window"),
    (Kind::DelWin, "delwin"),
    (Kind::DelAll, "delall"),
    (Kind::Reset, "reset"),
    (Kind::DelId, "delid"),
    (Kind::DelIdP, "delidp"),
    (Kind::Release, "release"),
    (Kind::Add, "add"),
    (Kind::Read, "read"),
    (Kind::Modify, "modify"),
    (Kind::Delete, "delete"),
    (Kind::Has, "has"),
    (Kind::Len, "len"),
    (Kind::Dump, "dump"),
    (Kind::Drain, "drain"),
];

impl Kind {
    pub fn of(word: &[u8]) -> Option<Kind> {
        KINDS
            .iter()
            .find(|(_, name)| name.as_bytes() == word)
            .map(|(kind, _)| *kind)
    }

    // How many values an answer has: a refusal what it carries; insertions of a packet, window and release two; deletions of a window and
    // reset three and what the last refusal carries; deletions by request ID whether there was a match, and the address, or whether the
    // packet was there and the refusal if not.
    pub fn count(self, number: u32, answer: &[u64; 8]) -> usize {
        if number > 0 {
            return carried(u64::from(number));
        }
        match self {
            Kind::Num | Kind::Add | Kind::Read | Kind::Modify | Kind::Has | Kind::Len => 1,
            Kind::Wrapped
            | Kind::WrappedL
            | Kind::Unwrapped
            | Kind::UnwrappedT
            | Kind::Window
            | Kind::Release => 2,
            Kind::DelWin | Kind::DelAll | Kind::Reset => 3 + carried(answer[2]),
            Kind::DelId if answer[0] == 0 => 1,
            Kind::DelId => 2,
            Kind::DelIdP if answer[0] == 0 => 1,
            Kind::DelIdP if answer[1] == 0 => 3 + carried(answer[2]),
            Kind::DelIdP => 2,
            Kind::New
            | Kind::Clock
            | Kind::Enable
            | Kind::Disable
            | Kind::Stored
            | Kind::Delete
            | Kind::Dump
            | Kind::Drain => 0,
        }
    }
}

// How many values a refusal carries.
fn carried(number: u64) -> usize
    ensures { result ≤ 6 }
{
    match number {
        5 | 6 | 11 | 12 | 16 | 17 | 18 | 20 => 1,
        19 => 2,
        13 => 6,
        _ => 0,
    }
}
