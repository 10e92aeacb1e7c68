// The tick as a caller has it who has not judged: it judges, and then does what the judged tick does.
#![tactic(auto)]

ghost use Rattle.schedule.specs.Judge.{judging};
ghost use Rattle.tick.specs.Promise.{Ticks, tick_paper};
ghost use Rattle.tick.specs.Tick.{tick_in};

use record::{Record, ScheduleRefusal};
use schedule::Setup;
use tick::{Handed, judged};

// Hands out, in schedule order, as many due entries as the limit allows and the log holds. They leave; with `delete` their packets too.
pub fn tick(
    setup: Setup,
    rec: &mut Record,
    store: &mut [u8],
    lens: &mut [u16],
    rows: &mut [u64],
    log: &mut [u8],
    limit: usize,
    delete: bool,
) -> Result<Handed, ScheduleRefusal>
    ensures { Ticks setup rec.old store.old lens.old rows.old log.old
        (judging setup rec.old store.old lens.old rows.old (tick_in limit delete log.old))
        (tick_paper result) rec.new store.new lens.new rows.new log.new }
{
    schedule::judge(setup, *rec, store, lens, rows)?;
    judged::tick(setup, rec, store, lens, rows, log, limit, delete)
}
