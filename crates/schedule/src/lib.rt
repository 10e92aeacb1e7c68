// The schedule as every call sees it: its setup, and refusals 1 to 3 over setup, record, store and rows.
#![tactic(auto)]

ghost use Rattle.std.specs.Prelude.{◌≡◌};
ghost use Rattle.schedule.specs.Judge.{Judges};

use record::{Record, ScheduleRefusal};
use slots::StoreRefusal;

mod tests;

pub use tests::{buffers_ok, setup_ok};

// The store's setup, and the number of entries.
#[derive(Clone, Copy)]
pub struct Setup {
    pub store: layout::Setup,
    pub entries: usize,
}

// Refusals 1 to 3 in their order: every call but the fresh start and those on the record alone starts with them.
pub fn judge(
    setup: Setup,
    rec: Record,
    store: &[u8],
    lens: &[u16],
    rows: &[u64],
) -> Result<(), ScheduleRefusal>
    ensures { Judges setup rec store.now lens.now rows.now result }
{
    if !tests::setup_ok(setup) {
        return Err(ScheduleRefusal::Store(StoreRefusal::BadSetup));
    }
    if !tests::buffers_ok(setup, store.len(), lens.len(), rows.len()) {
        return Err(ScheduleRefusal::Store(StoreRefusal::BadBuffers));
    }
    if !tests::state_ok(setup, rec, lens, rows) {
        return Err(ScheduleRefusal::Store(StoreRefusal::StateDamaged));
    }
    Ok(())
}
