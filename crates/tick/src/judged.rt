// The tick for a caller that has judged. Refusal 20 comes before anything is touched.
ghost use Rattle.std.specs.Prelude.{◌≡◌};
ghost use Rattle.schedule.specs.Judge.{Sound};
ghost use Rattle.layout.specs.Judge.{Sound as StoreSound};
ghost use Rattle.slots.specs.View.{view};
ghost use Rattle.rows.specs.Entries.{unpack};
ghost use Rattle.rows.specs.Order.{Held};
ghost use Rattle.tick.specs.Inside.{lack};
ghost use Rattle.tick.specs.Promise.{TickDoes, tick_paper};
ghost use Rattle.tick.specs.Tick.{tick_in};

use crate::Handed;
use record::{Record, ScheduleRefusal};
use release_log::MAX_LOG_BYTES;
use schedule::Setup;

pub fn tick(
    setup: Setup,
    rec: &mut Record,
    store: &mut [u8],
    lens: &mut [u16],
    rows: &mut [u64],
    log: &mut [u8],
    limit: usize,
    delete: bool,
) -> Result<Handed, ScheduleRefusal>
    requires { Sound setup rec.old store.old lens.old rows.old }
    ensures { TickDoes setup rec.old store.old lens.old rows.old log.old
        (tick_in limit delete log.old)
        (tick_paper result) rec.new store.new lens.new rows.new log.new }
{
    if log.len() < 8 {
        return Err(ScheduleRefusal::LogTooSmall(8));
    }
    let count = rec.count;
    let cap = log.len().min(MAX_LOG_BYTES);
    let due = table::up_to(rows, count, rec.clock.to_moment());
    let n = due.min(limit);
    if let Some(t) = lacking(setup.store, store, lens, rows, count, n, cap) {
        return Err(ScheduleRefusal::LogTooSmall(t));
    }
    let m = turns::release(
        setup.store,
        store,
        lens,
        rows,
        log,
        count,
        n,
        cap,
        rec.enabled,
        delete,
    );
    rec.count = count - m;
    Ok(Handed { m, remain: due - m })
}

// The log that the first of n rows needs alone, where it does not fit into cap bytes.
fn lacking(
    setup: layout::Setup,
    store: &[u8],
    lens: &[u16],
    rows: &[u64],
    count: usize,
    n: usize,
    cap: usize,
) -> Option<usize>
    requires store_sound { StoreSound setup store.now lens.now }
    requires held { Held rows.now count }
    ensures { result ≡ lack n cap (unpack count rows.now) (view setup store.now lens.now) }
{
    if n < 1 {
        return None;
    }
    let t = turns::first_total(setup, store, lens, rows, count);
    if t <= cap {
        return None;
    }
    Some(t)
}
