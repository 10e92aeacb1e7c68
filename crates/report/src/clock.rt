// Times as a date and a time of day in UTC: written, and read from a line.
ghost use Rattle.std.specs.Prelude.{◌≤◌};

use text::line::Line;
use text::out;
use time::{Moment, UnixTime};
use utc::Date;

// At least two digits.
fn two(rt: &impl Print, text: &[u8], n: u64) {
    out::say(rt, text);
    if n < 10 {
        out::say(rt, b"0");
    }
    out::number(rt, b"", n);
}

fn date(rt: &impl Print, d: Date) {
    out::number(rt, b"", d.year);
    two(rt, b"-", d.month);
    two(rt, b"-", d.day);
}

// A time of day, from the seconds since midnight.
fn time_of_day(rt: &impl Print, s: u64) {
    two(rt, b" ", s / 3600);
    two(rt, b":", s / 60 % 60);
    two(rt, b":", s % 60);
}

// A time; its seconds as a number where it lies before 1970 or out of range, and its nanoseconds where there are any.
pub fn show(rt: &impl Print, text: &[u8], t: UnixTime) {
    out::say(rt, text);
    if t.in_range() {
        biased(rt, t.to_moment());
    } else {
        out::signed(rt, b"second ", t.secs);
    }
    if t.nanos > 0 {
        out::number(rt, b" and ns ", t.nanos as u64);
    }
}

fn biased(rt: &impl Print, m: Moment) {
    if m.secs < 4398046511104 {
        out::number(rt, b"second -", 4398046511104 - m.secs);
        return;
    }
    since_1970(rt, m.secs - 4398046511104);
}

// 2^42 seconds are some 51 million days.
fn since_1970(rt: &impl Print, s: u64) {
    if s > 4398046511104 {
        out::number(rt, b"second ", s);
        return;
    }
    date(rt, utc::date_of((s / 86400) as u32));
    time_of_day(rt, s % 86400);
}

// What stands behind the first mark; nothing where there is none.
fn behind(text: &[u8], mark: u8) -> &[u8] {
    match text.iter().position(|b| *b == mark) {
        Some(at) => &text[at + 1..],
        None => b"",
    }
}

fn seconds(day: u64, h: u64, m: u64, s: u64) -> i64
    requires { day ≤ 2940000 }
{
    (day * 86400 + h % 24 * 3600 + m % 60 * 60 + s % 60) as i64
}

// Words k and k + 1, as 2026-11-15 06:10:00.
pub fn read(line: Line, k: usize) -> UnixTime {
    let year = line.rest(k);
    let month = behind(year, b'-');
    let day = behind(month, b'-');
    let hour = behind(day, b' ');
    let minute = behind(hour, b':');
    let second = behind(minute, b':');
    let date = utc::day_of(Date {
        year: Line(year).number(0),
        month: Line(month).number(0),
        day: Line(day).number(0),
    });
    UnixTime {
        secs: seconds(
            date,
            Line(hour).number(0),
            Line(minute).number(0),
            Line(second).number(0),
        ),
        nanos: 0,
    }
}
