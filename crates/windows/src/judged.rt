// Window retrieval for a caller that has judged: nothing is judged twice in one call.
ghost use Rattle.std.specs.Prelude.{◌≡◌};
ghost use Rattle.rules.specs.Papers.{says};
ghost use Rattle.schedule.specs.State.{State};
ghost use Rattle.rows.specs.Entries.{unpack};
ghost use Rattle.rows.specs.Order.{Sound as TableSound};
ghost use Rattle.windows.specs.Answers.{retrieved_paper};
ghost use Rattle.windows.specs.Windowing.{retrieve_in};

use crate::{TimeWindow, open};
use record::ScheduleRefusal;
use selection::Part;

pub fn retrieve_by_time_filter(
    rows: &[u64],
    count: usize,
    w: TimeWindow,
) -> Result<Part, ScheduleRefusal>
    requires { TableSound rows.now count }
    ensures { (s : State) → s.entries ≡ unpack count rows.now → retrieved_paper result ≡ says (retrieve_in w s) }
{
    let x = open(w)?;
    Ok(selection::window::rows_in(rows, count, x))
}
