// Clock + margin, and the test of refusal 13 (document 01, "Schedule rules").
ghost use Rattle.time.specs.Time.{InRange, MarginInRange};

use crate::times;
use text::line::Line;
use text::out;
use time::{Margin, Moment, UnixTime};

// Clock, margin and release. What is out of range is not tested further.
pub fn release(rt: &impl Print, line: Line) {
    let clock = line.time_of(1, 3);
    let margin = line.margin_of(6, 8);
    let release = line.time_of(11, 13);
    judge(rt, clock, margin, release);
}

fn judge(rt: &impl Print, clock: UnixTime, margin: Margin, release: UnixTime) {
    if !clock.in_range() {
        out::say(rt, b" clock out of range");
        return;
    }
    if !margin.in_range() {
        out::say(rt, b" margin out of range");
        return;
    }
    if !release.in_range() {
        out::say(rt, b" release out of range");
        return;
    }
    judged(rt, clock, margin, release);
}

fn judged(rt: &impl Print, clock: UnixTime, margin: Margin, release: UnixTime)
    requires in_range { InRange clock }
    requires margin_in_range { MarginInRange margin }
    requires in_range_2 { InRange release }
{
    earliest(rt, time::earliest_release(clock, margin));
    if time::in_time_margin(clock, margin, release) {
        out::say(rt, b", too early");
    } else {
        out::say(rt, b", accepted");
    }
}

// As a time where it is one; past the last time as it is counted, from -2^42 s.
fn earliest(rt: &impl Print, m: Moment) {
    if m.secs <= 8796093022208 {
        times::instant(rt, b" earliest ", m.to_unix_time());
        return;
    }
    times::span(rt, b" earliest past every time, moment ", m.secs, m.nanos);
}
