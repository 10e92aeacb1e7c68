// Dates in UTC: the date of a day counted from 1 January 1970, and the day of a date.
#![tactic(auto)]

ghost use Rattle.std.specs.Prelude.{◌≡◌, ◌+◌, ◌<◌, ◌≤◌, ◌^◌, ℕ};
ghost use Rattle.utc.specs.Calendar.{DateOf, DayOf, leap as isLeap, month_days, year_days};
ghost use Rattle.utc.specs.Inside.{Falls};

#[derive(Clone, Copy)]
pub struct Date {
    pub year: u64,
    pub month: u64,
    pub day: u64,
}

// The year or month in which a day falls, and the days of it before that day.
#[derive(Clone, Copy)]
struct Within {
    at: u64,
    left: u64,
}

#[tactic(auto, unfolding(crate::specs::Calendar::leap))]
fn leap(y: u64) -> bool
    ensures { result ≡ isLeap y }
{
    y % 400 == 0 || (y % 100 != 0 && y % 4 == 0)
}

#[tactic(auto, unfolding(crate::specs::Calendar::year_days))]
fn year_days(y: u64) -> u64
    ensures { result ≡ year_days y }
{
    if leap(y) { 366 } else { 365 }
}

#[tactic(auto, unfolding(crate::specs::Calendar::month_days))]
fn month_days(y: u64, m: u64) -> u64
    ensures { result ≡ month_days y m }
{
    match m {
        2 if leap(y) => 29,
        2 => 28,
        4 | 6 | 9 | 11 => 30,
        _ => 31,
    }
}

// Where day `days` falls, counted from the start of year or month `first`; number k has `length(k)` days.
fn place<F: Fn(u64) -> u64>(days: u64, first: u64, length: F) -> Within
    ghost days_of: { ℕ → ℕ }
    requires fits { first + days < 2 ^ 64 }
    requires callable { (k : ℕ) → k ≤ first + days → F.pre length k }
    requires gives { (k r : ℕ) → F.post length k r → r ≡ days_of k }
    requires some { (k : ℕ) → 0 < days_of k }
    ensures { Falls days_of days first result }
{
    let mut at = first;
    let mut left = days;
    loop {
        let next = length(at);
        if left < next {
            return Within { at, left };
        }
        left -= next;
        at += 1;
    }
}

// The date of a day.
pub fn date_of(day: u32) -> Date
    ensures { DateOf day result }
{
    let Within { at: year, left } = place(u64::from(day), 1970, year_days);
    let Within { at: month, left } = place(left, 1, |m| month_days(year, m));
    Date {
        year,
        month,
        day: 1 + left,
    }
}

// The day of a date; 0 for a year not from 1970 to 9999, a month not from 1 to 12 or a day not from 1 to 31.
// Of another date that the calendar has not, some number.
pub fn day_of(d: Date) -> u64
    ensures { DayOf d result }
{
    let Date {
        year: year @ 1970..=9999,
        month: month @ 1..=12,
        day: day @ 1..=31,
    } = d
    else {
        return 0;
    };
    let years: u64 = (1970..year).map(year_days).sum();
    let months: u64 = (1..month).map(|m| month_days(year, m)).sum();
    years + months + (day - 1)
}
