// The fresh start, by its own judging: it knows 1, 2 and 4 only.
#![tactic(auto)]

ghost use Rattle.std.specs.Prelude.{length};
ghost use Rattle.record.specs.Refusals.{done_paper};
ghost use Rattle.starting.specs.Starting.{Starts, start_in};

use record::{Record, ScheduleRefusal};
use schedule::Setup;
use time::{Margin, UnixTime};

mod start;

// Every slot free, no entry, and enabled with the given clock and margin. It knows 1, 2 and 4 only, whatever the tables held.
pub fn fresh_start(
    setup: Setup,
    rec: &mut Record,
    store: &mut [u8],
    lens: &mut [u16],
    rows: &mut [u64],
    clock: UnixTime,
    margin: Margin,
) -> Result<(), ScheduleRefusal>
    ensures { Starts setup rec.old store.old lens.old rows.old
        (start_in setup (length store.old) (length lens.old) (length rows.old) clock margin)
        (done_paper result) rec.new store.new lens.new rows.new }
{
    start::judge_start(setup, store.len(), lens.len(), rows.len(), clock, margin)?;
    let n = setup.entries;
    store::judged::fresh(setup.store, store, lens);
    table_edit::remove(rows, n, 0, n);
    *rec = start::started(clock, margin);
    Ok(())
}
