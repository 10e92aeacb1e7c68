// What a line does, by its first letter: small letters call the scheduler and the store, capitals set and show what they are lent.
use text::line::Line;

#[derive(Clone, Copy, PartialEq, Eq)]
pub enum Kind {
    Tick,
    View,
    Call(Call),
    Edit(Edit),
    Remark,
}

// A call that is not written out: what it does is seen at the next tick.
#[derive(Clone, Copy, PartialEq, Eq)]
pub enum Call {
    Start,
    Insert,
    Packet,
    Add,
    Vanish,
    Clock,
    Enable,
    Disable,
}

// The setup, how much of the tables a tick is lent, the record, a length, a word of a row.
#[derive(Clone, Copy, PartialEq, Eq)]
pub enum Edit {
    Setup,
    Lend,
    Known,
    Number,
    Word,
}

impl Kind {
    pub fn of(line: Line) -> Kind {
        match line.0 {
            [b't', ..] => Kind::Tick,
            [b'V', ..] => Kind::View,
            [b's', ..] => Kind::Call(Call::Start),
            [b'i', ..] => Kind::Call(Call::Insert),
            [b'p', ..] => Kind::Call(Call::Packet),
            [b'a', ..] => Kind::Call(Call::Add),
            [b'v', ..] => Kind::Call(Call::Vanish),
            [b'c', ..] => Kind::Call(Call::Clock),
            [b'e', ..] => Kind::Call(Call::Enable),
            [b'd', ..] => Kind::Call(Call::Disable),
            [b'S', ..] => Kind::Edit(Edit::Setup),
            [b'L', ..] => Kind::Edit(Edit::Lend),
            [b'K', ..] => Kind::Edit(Edit::Known),
            [b'N', ..] => Kind::Edit(Edit::Number),
            [b'W', ..] => Kind::Edit(Edit::Word),
            _ => Kind::Remark,
        }
    }
}
