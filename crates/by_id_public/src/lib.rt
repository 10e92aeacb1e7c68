// The public calls of the deletions by request ID (document 01, module 5): each judges, refusals 1 to 3 in one pass, and then does what its judged
// form does.
#![tactic(auto)]

ghost use Rattle.schedule.specs.Judge.{judging};
ghost use Rattle.schedule.specs.Promise.{Writes};
ghost use Rattle.by_id.specs.Answers.{freed_paper, taken_paper};
ghost use Rattle.by_id.specs.ById.{delete_by_id_in, delete_keeping_in};

use record::{Record, ScheduleRefusal};
use schedule::Setup;
use slots::StoreRefusal;

// The entry of a request ID goes, and its packet stays.
pub fn delete_by_request_id(
    setup: Setup,
    rec: &mut Record,
    store: &[u8],
    lens: &[u16],
    rows: &mut [u64],
    request_id: u64,
) -> Result<Option<u64>, ScheduleRefusal>
    ensures { Writes setup rec.old store.now lens.now rows.old
        (judging setup rec.old store.now lens.now rows.old (delete_keeping_in request_id))
        (taken_paper result) rec.new store.now lens.now rows.new }
{
    schedule::judge(setup, *rec, store, lens, rows)?;
    Ok(by_id::judged::delete_by_request_id(setup, rec, store, lens, rows, request_id))
}

// The entry of a request ID goes, and its packet with it.
pub fn delete_by_request_id_and_from_pool(
    setup: Setup,
    rec: &mut Record,
    store: &mut [u8],
    lens: &mut [u16],
    rows: &mut [u64],
    request_id: u64,
) -> Result<Option<Result<(), StoreRefusal>>, ScheduleRefusal>
    ensures { Writes setup rec.old store.old lens.old rows.old
        (judging setup rec.old store.old lens.old rows.old (delete_by_id_in request_id))
        (freed_paper result) rec.new store.new lens.new rows.new }
{
    schedule::judge(setup, *rec, store, lens, rows)?;
    Ok(by_id::judged::delete_by_request_id_and_from_pool(setup, rec, store, lens, rows, request_id))
}
