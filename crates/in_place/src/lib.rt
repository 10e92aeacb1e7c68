// The three calls that change the caller's record in place, each on a record that the function itself holds and goes on with: the record that the
// call left, refused or not, and the answer.
#![tactic(auto)]

ghost use Rattle.std.specs.Prelude.{false, true};
ghost use Rattle.record.specs.Record.{Changes, clock_in, mark_in};
ghost use Rattle.record.specs.Refusals.{done_paper};

use record::{Record, ScheduleRefusal};
use time::UnixTime;

pub fn enable(rec: Record) -> (Record, Result<(), ScheduleRefusal>)
    ensures { Changes (mark_in true rec) rec (done_paper result.1) result.0 }
{
    let mut r = rec;
    let answer = record::enable(&mut r);
    (r, answer)
}

pub fn disable(rec: Record) -> (Record, Result<(), ScheduleRefusal>)
    ensures { Changes (mark_in false rec) rec (done_paper result.1) result.0 }
{
    let mut r = rec;
    let answer = record::disable(&mut r);
    (r, answer)
}

pub fn set_clock(rec: Record, t: UnixTime) -> (Record, Result<(), ScheduleRefusal>)
    ensures { Changes (clock_in t rec) rec (done_paper result.1) result.0 }
{
    let mut r = rec;
    let answer = record::set_clock(&mut r, t);
    (r, answer)
}
