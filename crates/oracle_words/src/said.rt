// Words compared with a line's, one behind the other; from the first byte on that differs they are written out instead.
use std::fmt;
use std::fmt::{Display, Write};
use text::line::Line;
use text::{out, say};

#[derive(Drop)]
pub struct Said<'a, P> {
    rt: &'a P,
    line: Line<'a>,
    // How far the words have been the line's; nothing once the line was left.
    at: Option<usize>,
}

impl<'a, P: Print> Said<'a, P> {
    // The words that are to stand in a line from a place on.
    pub fn new(rt: &'a P, line: Line<'a>, at: usize) -> Said<'a, P> {
        Said {
            rt,
            line,
            at: Some(at),
        }
    }

    pub fn line(&self) -> Line<'a> {
        self.line
    }

    pub fn place(&self) -> Option<usize> {
        self.at
    }

    pub fn say<D: Display + Drop>(&mut self, words: D) {
        let _ = self.write(words);
    }

    // A mark and bytes, two digits each, or "-" where there are none; or that they do not lie inside.
    pub fn part(&mut self, mark: char, bytes: Option<&[u8]>) {
        let Some(bytes) = bytes else {
            self.say(" OUTSIDE");
            return;
        };
        self.say(mark);
        if bytes.is_empty() {
            self.say('-');
        }
        for b in bytes {
            self.pair(digits::digit(b / 16), digits::digit(b % 16));
        }
    }

    // The two digits of a byte: both at once where the line goes on with them. As words of a `Display` they take twice the time.
    fn pair(&mut self, high: u8, low: u8) {
        if let Some(at) = self.at {
            if let Some([a, b, ..]) = self.line.0.get(at..) {
                if *a == high && *b == low {
                    self.at = Some(at.saturating_add(2));
                    return;
                }
            }
        }
        self.byte(high);
        self.byte(low);
    }

    // The next words: at once where the line goes on with them, and else up to where it does not.
    fn text(&mut self, words: &[u8]) {
        if let Some(at) = self.at {
            if let Some(left) = self.line.0.get(at..) {
                if left.starts_with(words) {
                    self.at = Some(at.saturating_add(words.len()));
                    return;
                }
            }
        }
        for b in words {
            self.byte(*b);
        }
    }

    fn byte(&mut self, b: u8) {
        let line = self.line.0;
        if let Some(at) = self.at {
            if at < line.len() && line[at] == b {
                self.at = Some(at + 1);
                return;
            }
            // The line, and below it what is said here.
            out::say(self.rt, line);
            say!(self.rt; "\n  here, behind byte {at}: ");
            self.at = None;
        }
        out::say(self.rt, &[b]);
    }

    // Whether the words were the line's, and all of it.
    pub fn ended(self) -> bool {
        let line = self.line.0;
        match self.at {
            Some(at) if at == line.len() => return true,
            Some(at) => {
                out::say(self.rt, line);
                say!(self.rt; "\n  here no more, behind byte {at}\n");
            }
            None => say!(self.rt; "\n"),
        }
        false
    }
}

impl<P: Print> Write for Said<'_, P> {
    fn write_str(&mut self, s: &str) -> fmt::Result {
        self.text(s.as_bytes());
        Ok(())
    }
}
