// The insertion of a packet that is stored already, for a caller that has judged: its time, and then the gate alone.
ghost use Rattle.record.specs.Refusals.{done_paper};
ghost use Rattle.schedule.specs.Judge.{Sound};
ghost use Rattle.schedule.specs.Promise.{Does};
ghost use Rattle.gate.specs.Entering.{insert_stored_in};

use crate::gate;
use record::{Record, ScheduleRefusal};
use schedule::Setup;
use time::UnixTime;

pub fn insert_unwrapped_and_stored_tc(
    setup: Setup,
    rec: &mut Record,
    store: &[u8],
    lens: &[u16],
    rows: &mut [u64],
    release: UnixTime,
    request_id: u64,
    addr: u64,
) -> Result<(), ScheduleRefusal>
    requires { Sound setup rec.old store.now lens.now rows.old }
    ensures { Does setup rec.old store.now lens.now rows.old
        (insert_stored_in setup release request_id addr)
        (done_paper result) rec.new store.now lens.now rows.new }
{
    if !release.in_range() {
        return Err(ScheduleRefusal::BadTime);
    }
    gate(setup, *rec, release)?;
    let n = rec.count;
    table_edit::insert(rows, n, release.to_moment(), request_id, addr);
    rec.count = n + 1;
    Ok(())
}
