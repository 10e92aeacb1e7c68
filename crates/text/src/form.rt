// What is written by `{}` in a form of the programs' own: times, bytes, and rows of numbers.
use std::fmt;
use std::fmt::Display;
use time::UnixTime;

// Seconds and nanoseconds.
#[derive(Clone, Copy)]
pub struct Time(pub UnixTime);

impl Display for Time {
    fn fmt<W: fmt::Write>(&self, f: &mut fmt::Formatter<W>) -> fmt::Result {
        let t = self.0;
        write!(f, "{} {}", t.secs, t.nanos)
    }
}

#[derive(Clone, Copy)]
pub struct Margin(pub time::Margin);

impl Display for Margin {
    fn fmt<W: fmt::Write>(&self, f: &mut fmt::Formatter<W>) -> fmt::Result {
        let m = self.0;
        write!(f, "{} {}", m.secs, m.nanos)
    }
}

// Two digits for each byte, the letters small.
#[derive(Clone, Copy)]
pub struct Hex<'a>(pub &'a [u8]);

impl Display for Hex<'_> {
    fn fmt<W: fmt::Write>(&self, f: &mut fmt::Formatter<W>) -> fmt::Result {
        for b in self.0 {
            write!(f, "{b:02x}")?;
        }
        Ok(())
    }
}

// Two digits for each byte, as `line::Line::bytes` reads them.
#[derive(Clone, Copy)]
pub struct Digits<'a>(pub &'a [u8]);

impl Display for Digits<'_> {
    fn fmt<W: fmt::Write>(&self, f: &mut fmt::Formatter<W>) -> fmt::Result {
        for b in self.0 {
            f.write_char(char::from(digits::digit(b / 16)))?;
            f.write_char(char::from(digits::digit(b % 16)))?;
        }
        Ok(())
    }
}

// The same with a space between them.
#[derive(Clone, Copy)]
pub struct Bytes<'a>(pub &'a [u8]);

impl Display for Bytes<'_> {
    fn fmt<W: fmt::Write>(&self, f: &mut fmt::Formatter<W>) -> fmt::Result {
        match self.0 {
            [] => write!(f, "no bytes"),
            [first, others @ ..] => {
                write!(f, "{}", Digits(&[*first]))?;
                for b in others {
                    write!(f, " {}", Digits(&[*b]))?;
                }
                Ok(())
            }
        }
    }
}

// A space before each.
#[derive(Clone, Copy)]
pub struct Each<'a, T>(pub &'a [T]);

impl<T: Display> Display for Each<'_, T> {
    fn fmt<W: fmt::Write>(&self, f: &mut fmt::Formatter<W>) -> fmt::Result {
        for x in self.0 {
            write!(f, " {x}")?;
        }
        Ok(())
    }
}

// The same, and a mark before each four.
#[derive(Clone, Copy)]
pub struct Rows<'a>(pub &'a [u64]);

impl Display for Rows<'_> {
    fn fmt<W: fmt::Write>(&self, f: &mut fmt::Formatter<W>) -> fmt::Result {
        for row in self.0.chunks(4) {
            write!(f, " |{}", Each(row))?;
        }
        Ok(())
    }
}
