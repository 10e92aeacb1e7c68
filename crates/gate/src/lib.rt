// Refusals 13 and 14 (document 01, module 5), which every insertion ends with: whether a release is late, and whether the schedule is full.
#![tactic(auto)]

ghost use Rattle.time.specs.Time.{InRange, MarginInRange};
ghost use Rattle.gate.specs.Inside.{Gate};

use record::{Record, ScheduleRefusal};
use schedule::Setup;
use time::UnixTime;

pub mod judged;

pub fn gate(setup: Setup, rec: Record, release: UnixTime) -> Result<(), ScheduleRefusal>
    requires in_range { InRange rec.clock }
    requires margin_in_range { MarginInRange rec.margin }
    requires in_range_2 { InRange release }
    ensures { Gate setup rec release result }
{
    let clock = rec.clock;
    let margin = rec.margin;
    if time::in_time_margin(clock, margin, release) {
        return Err(ScheduleRefusal::ReleaseTimeInTimeMargin {
            clock,
            margin,
            release,
        });
    }
    if setup.entries <= rec.count {
        return Err(ScheduleRefusal::ScheduleFull);
    }
    Ok(())
}
