// Times and margins at the ends of their ranges (document 01, "Sizes"), and the order of two times.
ghost use Rattle.time.specs.Time.{InRange};

use text::line::Line;
use text::out;
use time::UnixTime;

pub fn instant(rt: &impl Print, text: &[u8], t: UnixTime) {
    out::signed(rt, text, t.secs);
    out::number(rt, b" s ", t.nanos as u64);
    out::say(rt, b" ns");
}

pub fn span(rt: &impl Print, text: &[u8], secs: u64, nanos: u32) {
    out::number(rt, text, secs);
    out::number(rt, b" s ", nanos as u64);
    out::say(rt, b" ns");
}

// One time; or two, the first against the second.
pub fn time(rt: &impl Print, line: Line) {
    let t = line.time_of(1, 3);
    if t.in_range() {
        if line.word(5) == b"against".as_slice() {
            against(rt, t, line.time_of(6, 8));
        } else {
            there_and_back(rt, t);
        }
    } else {
        out::say(rt, b" out of range");
    }
}

// The time counted from -2^42 s, and from there back.
fn there_and_back(rt: &impl Print, t: UnixTime)
    requires { InRange t }
{
    let m = t.to_moment();
    span(rt, b" in range, moment ", m.secs, m.nanos);
    instant(rt, b", back ", m.to_unix_time());
}

fn against(rt: &impl Print, a: UnixTime, b: UnixTime)
    requires { InRange a }
{
    if b.in_range() {
        ordered(rt, a, b);
    }
}

fn ordered(rt: &impl Print, a: UnixTime, b: UnixTime)
    requires in_range { InRange a }
    requires in_range_2 { InRange b }
{
    if a.to_moment().is_before(b.to_moment()) {
        out::say(rt, b" before");
    } else {
        out::say(rt, b" not before");
    }
}

pub fn margin(rt: &impl Print, line: Line) {
    let m = line.margin_of(1, 3);
    if m.in_range() {
        out::say(rt, b" in range");
    } else {
        out::say(rt, b" out of range");
    }
}
