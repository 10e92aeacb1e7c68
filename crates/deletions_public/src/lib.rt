// The public calls of windows and of the deletions of several entries (document 01, module 5): retrieval and deletion by window, and `reset`.
// Each judges, refusals 1 to 3 in one pass, and then does what its judged form does.
#![tactic(auto)]

ghost use Rattle.std.specs.Prelude.{◌≡◌};
ghost use Rattle.rules.specs.Papers.{says};
ghost use Rattle.schedule.specs.Judge.{judging};
ghost use Rattle.schedule.specs.Promise.{Writes};
ghost use Rattle.deletions.specs.Answers.{cleared_paper};
ghost use Rattle.windows.specs.Answers.{retrieved_paper};
ghost use Rattle.deletions.specs.Deleting.{delete_window_in, reset_in};
ghost use Rattle.windows.specs.Windowing.{retrieve_in};

use record::{Record, ScheduleRefusal};
use schedule::Setup;
use selection::Part;
use sweep::Tally;
use windows::TimeWindow;

// The rows of a window: the first and how many; row 0 where there are none.
pub fn retrieve_by_time_filter(
    setup: Setup,
    rec: Record,
    store: &[u8],
    lens: &[u16],
    rows: &[u64],
    w: TimeWindow,
) -> Result<Part, ScheduleRefusal>
    ensures { retrieved_paper result
        ≡ says (judging setup rec store.now lens.now rows.now (retrieve_in w)) }
{
    schedule::judge(setup, rec, store, lens, rows)?;
    windows::judged::retrieve_by_time_filter(rows, rec.count, w)
}

// The entries of a window go, with their packets. A packet that is missing is counted, and its entry goes all the same.
pub fn delete_by_time_filter(
    setup: Setup,
    rec: &mut Record,
    store: &mut [u8],
    lens: &mut [u16],
    rows: &mut [u64],
    w: TimeWindow,
) -> Result<Tally, ScheduleRefusal>
    ensures { Writes setup rec.old store.old lens.old rows.old
        (judging setup rec.old store.old lens.old rows.old (delete_window_in w))
        (cleared_paper result) rec.new store.new lens.new rows.new }
{
    schedule::judge(setup, *rec, store, lens, rows)?;
    deletions::deleting::delete_by_time_filter(setup, rec, store, lens, rows, w)
}

// Every entry goes, with its packet, and the scheduler is disabled.
pub fn reset(
    setup: Setup,
    rec: &mut Record,
    store: &mut [u8],
    lens: &mut [u16],
    rows: &mut [u64],
) -> Result<Tally, ScheduleRefusal>
    ensures { Writes setup rec.old store.old lens.old rows.old
        (judging setup rec.old store.old lens.old rows.old reset_in)
        (cleared_paper result) rec.new store.new lens.new rows.new }
{
    schedule::judge(setup, *rec, store, lens, rows)?;
    Ok(deletions::deleting::reset(setup, rec, store, lens, rows))
}
