// What a line does, by its first word.
use text::line::Line;

// A line of no such word is a remark.
#[derive(Clone, Copy, PartialEq, Eq)]
pub enum Kind {
    Call(Call),
    Edit(Edit),
    Show,
    Remark,
}

// A call of the scheduler.
#[derive(Clone, Copy, PartialEq, Eq)]
pub enum Call {
    Clock,
    Enable,
    Disable,
    Count,
    Retrieve,
    Stored,
    Take,
    Start,
    Unwrapped,
    Wrapped,
    Delete,
    Reset,
    Free,
}

// A change of what the calls are given.
#[derive(Clone, Copy, PartialEq, Eq)]
pub enum Edit {
    Setup,
    Lend,
    Record,
    Length,
    Word,
    Vanish,
}

impl Kind {
    pub fn of(line: Line) -> Kind {
        match line.word(0) {
            b"clock" => Kind::Call(Call::Clock),
            b"enable" => Kind::Call(Call::Enable),
            b"disable" => Kind::Call(Call::Disable),
            b"count" => Kind::Call(Call::Count),
            b"retrieve" => Kind::Call(Call::Retrieve),
            b"stored" => Kind::Call(Call::Stored),
            b"take" => Kind::Call(Call::Take),
            b"start" => Kind::Call(Call::Start),
            b"unwrapped" => Kind::Call(Call::Unwrapped),
            b"wrapped" => Kind::Call(Call::Wrapped),
            b"delete" => Kind::Call(Call::Delete),
            b"reset" => Kind::Call(Call::Reset),
            b"free" => Kind::Call(Call::Free),
            b"Setup" => Kind::Edit(Edit::Setup),
            b"Lend" => Kind::Edit(Edit::Lend),
            b"Record" => Kind::Edit(Edit::Record),
            b"Length" => Kind::Edit(Edit::Length),
            b"Word" => Kind::Edit(Edit::Word),
            b"Vanish" => Kind::Edit(Edit::Vanish),
            b"Show" => Kind::Show,
            _ => Kind::Remark,
        }
    }
}
