// The public calls of the three insertions (document 01, module 5): of a packet that is stored already, by a time and a packet, and by a wrapped
// packet. Each judges, refusals 1 to 3 in one pass, and then does what its judged form does.
#![tactic(auto)]

ghost use Rattle.record.specs.Refusals.{done_paper};
ghost use Rattle.schedule.specs.Judge.{judging};
ghost use Rattle.schedule.specs.Promise.{Writes};
ghost use Rattle.storing.specs.Answers.{inserted_paper};
ghost use Rattle.gate.specs.Entering.{insert_stored_in};
ghost use Rattle.insertions.specs.Inserting.{insert_unwrapped_in};
ghost use Rattle.wrapped.specs.Wrapped.{insert_wrapped_in};

use record::{Record, ScheduleRefusal};
use rows::TcInfo;
use schedule::Setup;
use time::UnixTime;

// An entry for a packet that is in the store already. Its address is not judged.
pub fn insert_unwrapped_and_stored_tc(
    setup: Setup,
    rec: &mut Record,
    store: &[u8],
    lens: &[u16],
    rows: &mut [u64],
    release: UnixTime,
    request_id: u64,
    addr: u64,
) -> Result<(), ScheduleRefusal>
    ensures { Writes setup rec.old store.now lens.now rows.old
        (judging setup rec.old store.now lens.now rows.old (insert_stored_in setup release request_id addr))
        (done_paper result) rec.new store.now lens.now rows.new }
{
    schedule::judge(setup, *rec, store, lens, rows)?;
    gate::judged::insert_unwrapped_and_stored_tc(
        setup, rec, store, lens, rows, release, request_id, addr,
    )
}

// A command with its release time: its packet goes to the store, and its entry to the schedule.
pub fn insert_unwrapped_tc(
    setup: Setup,
    rec: &mut Record,
    store: &mut [u8],
    lens: &mut [u16],
    rows: &mut [u64],
    release: UnixTime,
    tc: &[u8],
) -> Result<TcInfo, ScheduleRefusal>
    ensures { Writes setup rec.old store.old lens.old rows.old
        (judging setup rec.old store.old lens.old rows.old (insert_unwrapped_in setup release tc.now))
        (inserted_paper result) rec.new store.new lens.new rows.new }
{
    schedule::judge(setup, *rec, store, lens, rows)?;
    insertions::inserting::insert_unwrapped_tc(setup, rec, store, lens, rows, release, tc)
}

// A packet of service 11, subservice 4, whose user data is a stamp and the command.
pub fn insert_wrapped_tc(
    setup: Setup,
    rec: &mut Record,
    store: &mut [u8],
    lens: &mut [u16],
    rows: &mut [u64],
    outer: &[u8],
) -> Result<TcInfo, ScheduleRefusal>
    ensures { Writes setup rec.old store.old lens.old rows.old
        (judging setup rec.old store.old lens.old rows.old (insert_wrapped_in setup outer.now))
        (inserted_paper result) rec.new store.new lens.new rows.new }
{
    schedule::judge(setup, *rec, store, lens, rows)?;
    wrapped::judged::insert_wrapped_tc(setup, rec, store, lens, rows, outer)
}
