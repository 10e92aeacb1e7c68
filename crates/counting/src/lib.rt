// The count of the entries.
#![tactic(auto)]

ghost use Rattle.std.specs.Prelude.{◌≡◌};
ghost use Rattle.rules.specs.Papers.{says};
ghost use Rattle.schedule.specs.Judge.{judging};
ghost use Rattle.counting.specs.Answers.{counted_paper};
ghost use Rattle.counting.specs.Counting.{count_in};

use record::{Record, ScheduleRefusal};
use schedule::Setup;

// How many entries there are. It judges everything, as every call but those on the record alone does.
pub fn count(
    setup: Setup,
    rec: Record,
    store: &[u8],
    lens: &[u16],
    rows: &[u64],
) -> Result<usize, ScheduleRefusal>
    ensures { counted_paper result ≡ says (judging setup rec store.now lens.now rows.now count_in) }
{
    schedule::judge(setup, rec, store, lens, rows)?;
    Ok(rec.count)
}
