// Times and margins (document 01, "Sizes"): their ranges, their order, and clock + margin, which decides refusal 13.
#![tactic(auto)]

ghost use Rattle.std.specs.Prelude.{◌≡◌, ◌≤◌, ltb};
ghost use Rattle.time.specs.Time.{
  InRange,
  MarginInRange,
  MomentInRange,
  earliest,
  in_range,
  in_time_margin,
  instant_of,
  margin_in_range,
  moment_at,
  moment_of,
  span,
  time_of,
};

// Seconds from 1970, and nanoseconds: what callers pass and what the record holds, in range or not.
#[derive(Clone, Copy, PartialEq, Eq)]
pub struct UnixTime {
    pub secs: i64,
    pub nanos: u32,
}

// How long before its release a command must be there.
#[derive(Clone, Copy, PartialEq, Eq)]
pub struct Margin {
    pub secs: u64,
    pub nanos: u32,
}

// A time in range, its seconds counted from -2^42 and so unsigned: what tables hold and tests compare.
#[derive(Clone, Copy, PartialEq, Eq, PartialOrd, Ord)]
pub struct Moment {
    pub secs: u64,
    pub nanos: u32,
}

impl UnixTime {
    // Refusals 3 and 4 judge a time by this.
    pub fn in_range(self) -> bool
        ensures { result ≡ in_range self }
    {
        (-4398046511104..=4398046511104).contains(&self.secs) && self.nanos < 1000000000
    }

    pub fn to_moment(self) -> Moment
        requires { InRange self }
        ensures { result ≡ moment_of self }
    {
        let secs = (self.secs + 4398046511104) as u64;
        Moment {
            secs,
            nanos: self.nanos,
        }
    }
}

impl Margin {
    // Refusals 3 and 4 judge a margin by this.
    pub fn in_range(self) -> bool
        ensures { result ≡ margin_in_range self }
    {
        self.secs <= 2147483648 && self.nanos < 1000000000
    }
}

impl Moment {
    pub fn to_unix_time(self) -> UnixTime
        requires { self.secs ≤ 8796093022208 }
        ensures { result ≡ time_of self }
    {
        let secs = (self.secs as i64) - 4398046511104;
        UnixTime {
            secs,
            nanos: self.nanos,
        }
    }

    pub fn is_before(self, other: Moment) -> bool
        requires moment_in_range { MomentInRange self }
        requires moment_in_range_2 { MomentInRange other }
        ensures { result ≡ ltb (instant_of self) (instant_of other) }
    {
        self < other
    }
}

// The earliest release that a clock and a margin accept: their sum, with the carry of the nanoseconds.
pub fn earliest_release(clock: UnixTime, margin: Margin) -> Moment
    requires in_range { InRange clock }
    requires margin_in_range { MarginInRange margin }
    ensures { result ≡ moment_at (earliest clock margin) }
{
    let c = clock.to_moment();
    let secs = c.secs + margin.secs;
    let nanos = c.nanos + margin.nanos;
    if nanos < 1000000000 {
        return Moment { secs, nanos };
    }
    Moment {
        secs: secs + 1,
        nanos: nanos - 1000000000,
    }
}

// Refusal 13's test. A release equal to clock + margin is accepted.
pub fn in_time_margin(clock: UnixTime, margin: Margin, release: UnixTime) -> bool
    requires in_range { InRange clock }
    requires margin_in_range { MarginInRange margin }
    requires in_range_2 { InRange release }
    ensures { result ≡ in_time_margin clock margin release }
{
    release
        .to_moment()
        .is_before(earliest_release(clock, margin))
}
