// A command's packet put into the store and its entry into the schedule, or neither (document 01, module 5): how every insertion by bytes ends.
#![tactic(auto)]

ghost use Rattle.std.specs.Prelude.{◌≡◌, false, ◌<◌};
ghost use Rattle.store.specs.Calls.{add_in};
ghost use Rattle.layout.specs.Judge.{Sound as StoreSound};
ghost use Rattle.slots.specs.View.{view};
ghost use Rattle.time.specs.Time.{InRange, in_time_margin};
ghost use Rattle.storing.specs.Answers.{inserted_paper};
ghost use Rattle.storing.specs.Entered.{entered};
ghost use Rattle.storing.specs.Inside.{first_paper};
ghost use Rattle.schedule.specs.Judge.{Sound};
ghost use Rattle.schedule.specs.Promise.{Does};

use record::{Record, ScheduleRefusal};
use rows::TcInfo;
use schedule::Setup;
use time::UnixTime;

// 13 or 14: nothing is stored, and the store's 11 and 12 come first.
pub fn refuse_unstored(
    setup: Setup,
    store: &mut [u8],
    lens: &mut [u16],
    tc: &[u8],
    own: ScheduleRefusal,
) -> Result<TcInfo, ScheduleRefusal>
    requires { StoreSound setup.store store.old lens.old }
    ensures { (inserted_paper result
        ≡ first_paper (add_in setup.store.spill (view setup.store store.old lens.old) tc.now) own)
        × (store.new ≡ store.old) × (lens.new ≡ lens.old) }
{
    store::judged::would_add(setup.store, store, lens, tc)?;
    Err(own)
}

// Neither 13 nor 14: the packet goes to the store, and its entry to the schedule. It answers the packet's address and its request ID.
pub fn store_and_enter(
    setup: Setup,
    rec: &mut Record,
    store: &mut [u8],
    lens: &mut [u16],
    rows: &mut [u64],
    release: UnixTime,
    tc: &[u8],
    id: u64,
) -> Result<TcInfo, ScheduleRefusal>
    requires sound { Sound setup rec.old store.old lens.old rows.old }
    requires in_range { InRange release }
    requires release_value { (in_time_margin rec.old.clock rec.old.margin release ≡ false) × (rec.old.count < setup.entries) }
    ensures { Does setup rec.old store.old lens.old rows.old
        (λ s. entered setup release id s (add_in setup.store.spill s.pools tc.now))
        (inserted_paper result) rec.new store.new lens.new rows.new }
{
    let addr = store::judged::add(setup.store, store, lens, tc)?;
    let n = rec.count;
    table_edit::insert(rows, n, release.to_moment(), id, addr);
    rec.count = n + 1;
    Ok(TcInfo {
        request_id: id,
        addr,
    })
}
