// The insertion by a time and a packet, for a caller that has judged; the wrapped one ends with the same.
ghost use Rattle.std.specs.Prelude.{◌≡◌, Ok};
ghost use Rattle.time.specs.Time.{InRange};
ghost use Rattle.storing.specs.Answers.{inserted_paper};
ghost use Rattle.insertions.specs.Inserting.{activity, insert_tc, insert_unwrapped_in, nested as nestedOf};
ghost use Rattle.schedule.specs.Judge.{Sound};
ghost use Rattle.schedule.specs.Promise.{Does};

use packet::Header;
use record::{Record, ScheduleRefusal};
use rows::TcInfo;
use schedule::Setup;
use storing::{refuse_unstored, store_and_enter};
use time::UnixTime;

pub fn insert_unwrapped_tc(
    setup: Setup,
    rec: &mut Record,
    store: &mut [u8],
    lens: &mut [u16],
    rows: &mut [u64],
    release: UnixTime,
    tc: &[u8],
) -> Result<TcInfo, ScheduleRefusal>
    requires { Sound setup rec.old store.old lens.old rows.old }
    ensures { Does setup rec.old store.old lens.old rows.old
        (insert_unwrapped_in setup release tc.now)
        (inserted_paper result) rec.new store.new lens.new rows.new }
{
    if !release.in_range() {
        return Err(ScheduleRefusal::BadTime);
    }
    insert_tc(setup, rec, store, lens, rows, release, tc)
}

// A command of a time in range.
pub fn insert_tc(
    setup: Setup,
    rec: &mut Record,
    store: &mut [u8],
    lens: &mut [u16],
    rows: &mut [u64],
    release: UnixTime,
    tc: &[u8],
) -> Result<TcInfo, ScheduleRefusal>
    requires sound { Sound setup rec.old store.old lens.old rows.old }
    requires in_range { InRange release }
    ensures { Does setup rec.old store.old lens.old rows.old
        (insert_tc setup release tc.now)
        (inserted_paper result) rec.new store.new lens.new rows.new }
{
    let Ok(h) = packet::read(tc) else {
        return Err(ScheduleRefusal::TcUnreadable);
    };
    insert_readable(setup, rec, store, lens, rows, release, tc, h)
}

fn insert_readable(
    setup: Setup,
    rec: &mut Record,
    store: &mut [u8],
    lens: &mut [u16],
    rows: &mut [u64],
    release: UnixTime,
    tc: &[u8],
    h: Header,
) -> Result<TcInfo, ScheduleRefusal>
    requires sound { Sound setup rec.old store.old lens.old rows.old }
    requires in_range { InRange release }
    ensures { Does setup rec.old store.old lens.old rows.old
        (λ s. activity setup release tc.now s (Ok h))
        (inserted_paper result) rec.new store.new lens.new rows.new }
{
    if nested(h) {
        return Err(ScheduleRefusal::NestedScheduledTc);
    }
    let id = h.request_id().as_u64();
    if let Err(own) = gate::gate(setup, *rec, release) {
        return refuse_unstored(setup, store, lens, tc, own);
    }
    store_and_enter(setup, rec, store, lens, rows, release, tc, id)
}

fn nested(h: Header) -> bool
    ensures { result ≡ nestedOf h }
{
    h.service == 11 && h.subservice == 4
}
