// The scheduler's record and what changes it alone: setting the clock, enable, disable. And the schedule's refusals.
#![tactic(auto)]

ghost use Rattle.std.specs.Prelude.{◌≡◌, false, true};
ghost use Rattle.record.specs.Record.{Changes, changed_paper, clock_in, mark_in, record_after, times_in_range};
ghost use Rattle.record.specs.Refusals.{done_paper};
ghost use Rattle.record.specs.declared.ScheduleRefusal.TheVariants.{Store};

use slots::StoreRefusal;
use time::{Margin, UnixTime};

// What the scheduler keeps beside its tables: the number of entries, the clock, the margin, and whether it is enabled.
#[derive(Clone, Copy, PartialEq, Eq)]
pub struct Record {
    pub count: usize,
    pub clock: UnixTime,
    pub margin: Margin,
    pub enabled: bool,
}

// Why a schedule call refuses. The store's refusals, 1 to 3 among them, are inside.
#[derive(Clone, Copy)]
pub enum ScheduleRefusal {
    Store(StoreRefusal),
    BadTime,
    WrongService(u8),
    WrongSubservice(u8),
    TcDataEmpty,
    BadTimestamp,
    TcUnreadable,
    NestedScheduledTc,
    ReleaseTimeInTimeMargin {
        clock: UnixTime,
        margin: Margin,
        release: UnixTime,
    },
    ScheduleFull,
    ReversedWindow,
    LogTooSmall(usize),
}

// A call that asks the store hands the store's refusal on.
impl From<StoreRefusal> for ScheduleRefusal {
    ghost from_gives = { λ e r. r ≡ Store e };

    fn from(e: StoreRefusal) -> ScheduleRefusal {
        ScheduleRefusal::Store(e)
    }
}

impl Record {
    // The record's part of refusal 3: its clock and margin.
    pub fn times_in_range(self) -> bool
        ensures { result ≡ times_in_range self }
    {
        self.clock.in_range() && self.margin.in_range()
    }

    // The record with the enabled mark at `on`.
    pub fn marked(self, on: bool) -> Result<Record, ScheduleRefusal>
        ensures { Changes (mark_in on self) self (changed_paper result) (record_after self result) }
    {
        if !self.times_in_range() {
            return Err(ScheduleRefusal::Store(StoreRefusal::StateDamaged));
        }
        Ok(Record {
            enabled: on,
            ..self
        })
    }

    // The record with the clock at a time, which may lie before the present one.
    pub fn clocked(self, t: UnixTime) -> Result<Record, ScheduleRefusal>
        ensures { Changes (clock_in t self) self (changed_paper result) (record_after self result) }
    {
        if !self.times_in_range() {
            return Err(ScheduleRefusal::Store(StoreRefusal::StateDamaged));
        }
        if !t.in_range() {
            return Err(ScheduleRefusal::BadTime);
        }
        Ok(Record { clock: t, ..self })
    }
}

// The three calls that change the caller's record in place. They see the record alone.
pub fn enable(r: &mut Record) -> Result<(), ScheduleRefusal>
    ensures { Changes (mark_in true r.old) r.old (done_paper result) r.new }
{
    *r = r.marked(true)?;
    Ok(())
}

pub fn disable(r: &mut Record) -> Result<(), ScheduleRefusal>
    ensures { Changes (mark_in false r.old) r.old (done_paper result) r.new }
{
    *r = r.marked(false)?;
    Ok(())
}

pub fn set_clock(r: &mut Record, t: UnixTime) -> Result<(), ScheduleRefusal>
    ensures { Changes (clock_in t r.old) r.old (done_paper result) r.new }
{
    *r = r.clocked(t)?;
    Ok(())
}
