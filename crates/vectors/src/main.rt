// The leaves, run through their public functions: each line of the input is written out again, with what they say of it.
#![tactic(auto)]

mod codes;
mod packets;
mod releases;
mod stamps;
mod times;

use text::line::{Line, Lines};
use text::{input, out};

fn main(rt: HostRuntime) {
    let mut text = input::large_buffer();
    let n = input::read_full(&mut rt.stdin(), &mut text);
    all(&rt, &text[..n]);
}

fn all(rt: &impl Print, text: &[u8]) {
    for line in Lines(text) {
        out::say(rt, line.0);
        if let Some(asked) = Asked::by(line) {
            out::say(rt, b":");
            one(rt, asked, line);
        }
        out::say(rt, b"\n");
    }
}

// What a line asks for.
#[derive(Clone, Copy, PartialEq, Eq)]
enum Asked {
    Check,
    Number,
    Packet,
    Wrapped,
    Stamp,
    First,
    Time,
    Margin,
    Clock,
}

impl Asked {
    // By the line's first word. A line of no such word is a remark.
    fn by(line: Line) -> Option<Asked> {
        match line.word(0) {
            b"check" => Some(Asked::Check),
            b"number" => Some(Asked::Number),
            b"packet" => Some(Asked::Packet),
            b"wrapped" => Some(Asked::Wrapped),
            b"stamp" => Some(Asked::Stamp),
            b"first" => Some(Asked::First),
            b"time" => Some(Asked::Time),
            b"margin" => Some(Asked::Margin),
            b"clock" => Some(Asked::Clock),
            _ => None,
        }
    }
}

fn one(rt: &impl Print, asked: Asked, line: Line) {
    match asked {
        Asked::Check => codes::code(rt, line),
        Asked::Number => codes::number(rt, line),
        Asked::Packet => packets::packet(rt, line),
        Asked::Wrapped => packets::wrapped(rt, line),
        Asked::Stamp => stamps::stamp(rt, line),
        Asked::First => stamps::every_first_byte(rt),
        Asked::Time => times::time(rt, line),
        Asked::Margin => times::margin(rt, line),
        Asked::Clock => releases::release(rt, line),
    }
}
