// The deletions of several entries for a caller that has judged: by window, and all of them.
ghost use Rattle.std.specs.Prelude.{◌+◌, ◌≤◌, Ok};
ghost use Rattle.deletions.specs.Answers.{cleared_paper};
ghost use Rattle.deletions.specs.Deleting.{delete_window_in, reset_in};
ghost use Rattle.deletions.specs.Inside.{clear_part};
ghost use Rattle.schedule.specs.Judge.{Sound};
ghost use Rattle.schedule.specs.Promise.{Does};

use record::{Record, ScheduleRefusal};
use schedule::Setup;
use selection::Part;
use sweep::Tally;
use windows::TimeWindow;

pub fn delete_by_time_filter(
    setup: Setup,
    rec: &mut Record,
    store: &mut [u8],
    lens: &mut [u16],
    rows: &mut [u64],
    w: TimeWindow,
) -> Result<Tally, ScheduleRefusal>
    requires { Sound setup rec.old store.old lens.old rows.old }
    ensures { Does setup rec.old store.old lens.old rows.old
        (delete_window_in w)
        (cleared_paper result) rec.new store.new lens.new rows.new }
{
    let x = windows::open(w)?;
    let part = selection::window::rows_in(rows, rec.count, x);
    let enabled = rec.enabled;
    Ok(clear(setup, rec, store, lens, rows, part, enabled))
}

// It refuses nothing.
pub fn reset(
    setup: Setup,
    rec: &mut Record,
    store: &mut [u8],
    lens: &mut [u16],
    rows: &mut [u64],
) -> Tally
    requires { Sound setup rec.old store.old lens.old rows.old }
    ensures { Does setup rec.old store.old lens.old rows.old
        reset_in
        (cleared_paper (Ok result)) rec.new store.new lens.new rows.new }
{
    let all = Part {
        first: 0,
        number: rec.count,
    };
    clear(setup, rec, store, lens, rows, all, false)
}

// The entries of a range of rows go, with their packets.
fn clear(
    setup: Setup,
    rec: &mut Record,
    store: &mut [u8],
    lens: &mut [u16],
    rows: &mut [u64],
    part: Part,
    enabled: bool,
) -> Tally
    requires sound { Sound setup rec.old store.old lens.old rows.old }
    requires number_bound { part.first + part.number ≤ rec.old.count }
    ensures { Does setup rec.old store.old lens.old rows.old
        (clear_part part enabled)
        (cleared_paper (Ok result)) rec.new store.new lens.new rows.new }
{
    let n = rec.count;
    let tally = sweep::sweep(setup.store, store, lens, rows, n, part);
    table_edit::remove(rows, n, part.first, part.number);
    rec.count = n - part.number;
    rec.enabled = enabled;
    tally
}
