// What a line does, by its first word: what is given, calls and damage first, then questions. A line of no such word is a remark.
use text::line::Line;

#[derive(Clone, Copy, PartialEq, Eq)]
pub enum Command {
    Setup,
    Lend,
    Start,
    Add,
    Fill,
    Delete,
    Modify,
    ModifyWith,
    Bytes,
    Lengths,
    Length,
    Read,
    Judge,
    Address,
    Good,
    Subpool,
    Decode,
    Show,
}

impl Command {
    pub fn of(line: Line) -> Option<Command> {
        match line.word(0) {
            b"Setup" => Some(Command::Setup),
            b"Lend" => Some(Command::Lend),
            b"start" => Some(Command::Start),
            b"add" => Some(Command::Add),
            b"fill" => Some(Command::Fill),
            b"delete" => Some(Command::Delete),
            b"modify" => Some(Command::Modify),
            b"modify_with" => Some(Command::ModifyWith),
            b"Bytes" => Some(Command::Bytes),
            b"Lengths" => Some(Command::Lengths),
            b"Length" => Some(Command::Length),
            b"read" => Some(Command::Read),
            b"judge" => Some(Command::Judge),
            b"address" => Some(Command::Address),
            b"good" => Some(Command::Good),
            b"subpool" => Some(Command::Subpool),
            b"decode" => Some(Command::Decode),
            b"Show" => Some(Command::Show),
            _ => None,
        }
    }
}
