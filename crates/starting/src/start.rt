// The fresh start's judging: 1, 2 and 4 only, and the record that it begins with.
ghost use Rattle.std.specs.Prelude.{◌≡◌};
ghost use Rattle.starting.specs.Inside.{StartJudges, start_record};

use record::{Record, ScheduleRefusal};
use schedule::Setup;
use slots::StoreRefusal;
use time::{Margin, UnixTime};

pub fn judge_start(
    setup: Setup,
    room: usize,
    lens: usize,
    rows: usize,
    clock: UnixTime,
    margin: Margin,
) -> Result<(), ScheduleRefusal>
    ensures { StartJudges setup room lens rows clock margin result }
{
    if !schedule::setup_ok(setup) {
        return Err(ScheduleRefusal::Store(StoreRefusal::BadSetup));
    }
    if !schedule::buffers_ok(setup, room, lens, rows) {
        return Err(ScheduleRefusal::Store(StoreRefusal::BadBuffers));
    }
    if !clock.in_range() || !margin.in_range() {
        return Err(ScheduleRefusal::BadTime);
    }
    Ok(())
}

pub fn started(clock: UnixTime, margin: Margin) -> Record
    ensures { result ≡ start_record clock margin }
{
    Record {
        count: 0,
        clock,
        margin,
        enabled: true,
    }
}
