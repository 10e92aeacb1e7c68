// A line: its words, and the numbers, times and bytes that the words are.
ghost use Rattle.std.specs.Prelude.{◌≤◌, length};
ghost use Rattle.std.specs.Iterator.{at_most};
ghost use Rattle.text.specs.Counts.{IsPrefixLen};

use time::{Margin, UnixTime};

// A text without an end mark. Its words stand between single spaces, and are counted from 0.
#[derive(Clone, Copy)]
pub struct Line<'a>(pub &'a [u8]);

impl<'a> Line<'a> {
    // Word k; empty where there is none.
    pub fn word(self, k: usize) -> &'a [u8] {
        let (Line(word), _) = Line(self.rest(k)).cut(b' ');
        word
    }

    // What stands from word k on; empty where there is none.
    pub fn rest(self, k: usize) -> &'a [u8] {
        let mut left = self.0;
        for _ in 0..k {
            match left.iter().position(|b| *b == b' ') {
                Some(end) => left = &left[end + 1..],
                None => return b"",
            }
        }
        left
    }

    // What stands before a mark, and what from it on; all and nothing where there is none.
    pub fn cut(self, mark: u8) -> (Line<'a>, Line<'a>) {
        let at = self
            .0
            .iter()
            .position(|b| *b == mark)
            .unwrap_or(self.0.len());
        let (before, from) = self.0.split_at(at);
        (Line(before), Line(from))
    }

    // The number that word k begins with; 0 where it begins with none, and the largest there is where it is larger.
    pub fn number(self, k: usize) -> u64 {
        digits::decimal(self.rest(k), 0)
    }

    // The same with a sign.
    pub fn signed(self, k: usize) -> i64 {
        match self.rest(k) {
            [b'-', size @ ..] => digits::below(digits::decimal(size, 0)),
            size => digits::above(digits::decimal(size, 0)),
        }
    }

    pub fn index(self, k: usize) -> usize {
        self.number(k) as usize
    }

    // The last 32, 16 or 8 bits of a number.
    pub fn long(self, k: usize) -> u32 {
        (self.number(k) & 0xFFFF_FFFF) as u32
    }

    pub fn short(self, k: usize) -> u16 {
        (self.number(k) & 0xFFFF) as u16
    }

    pub fn byte(self, k: usize) -> u8 {
        (self.number(k) & 0xFF) as u8
    }

    // Words k and n: seconds and nanoseconds.
    pub fn time_of(self, k: usize, n: usize) -> UnixTime {
        UnixTime {
            secs: self.signed(k),
            nanos: self.long(n),
        }
    }

    pub fn margin_of(self, k: usize, n: usize) -> Margin {
        Margin {
            secs: self.number(k),
            nanos: self.long(n),
        }
    }

    // Word k and the next.
    pub fn time(self, k: usize) -> UnixTime {
        self.time_of(k, k.saturating_add(1))
    }

    pub fn margin(self, k: usize) -> Margin {
        self.margin_of(k, k.saturating_add(1))
    }

    // The bytes that are written from word k on, two digits each: to the first that is no digit or space, and as many as there is room for.
    pub fn bytes<'b>(self, k: usize, room: &'b mut [u8]) -> &'b [u8]
        ensures { length result.now ≤ length room.old }
    {
        let n = bytes(self.0, k, room);
        &room[..n]
    }
}

// The lines of a text, each up to its end mark.
#[derive(Clone, Copy)]
pub struct Lines<'a>(pub &'a [u8]);

impl<'a> Iterator for Lines<'a> {
    type Item = Line<'a>;

    ghost remaining = { λ s. at_most (length s.0.now) };

    fn next(&mut self) -> Option<Line<'a>> {
        let text = self.0;
        if text.is_empty() {
            return None;
        }
        match text.iter().position(|b| *b == b'\n') {
            Some(end) => {
                self.0 = &text[end + 1..];
                Some(Line(&text[..end]))
            }
            None => {
                self.0 = b"";
                Some(Line(text))
            }
        }
    }
}

// How many bytes `Line::bytes` reads.
fn bytes(text: &[u8], k: usize, room: &mut [u8]) -> usize
    ensures { IsPrefixLen result room.new }
{
    let mut left = Line(text).rest(k);
    let mut n = 0;
    loop {
        left = match left {
            [b' ', behind @ ..] => behind,
            [a, b, behind @ ..] if n < room.len() && digits::both(*a, *b) => {
                room[n] = digits::pair(*a, *b);
                n += 1;
                behind
            }
            _ => return n,
        };
    }
}
