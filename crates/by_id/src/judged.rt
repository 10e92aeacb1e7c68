// The deletions by request ID, for a caller that has judged: in the earliest release time that has a match, the last match goes.
ghost use Rattle.std.specs.Prelude.{Ok};
ghost use Rattle.by_id.specs.Answers.{freed_paper, taken_paper};
ghost use Rattle.by_id.specs.ById.{delete_by_id_in, delete_keeping_in};
ghost use Rattle.schedule.specs.Judge.{Sound};
ghost use Rattle.schedule.specs.Promise.{Does};

use record::Record;
use schedule::Setup;
use slots::StoreRefusal;

// The entry goes, and the packet stays: its address as it was inserted, where a row has the ID.
pub fn delete_by_request_id(
    setup: Setup,
    rec: &mut Record,
    store: &[u8],
    lens: &[u16],
    rows: &mut [u64],
    request_id: u64,
) -> Option<u64>
    requires { Sound setup rec.old store.now lens.now rows.old }
    ensures { Does setup rec.old store.now lens.now rows.old
        (delete_keeping_in request_id)
        (taken_paper (Ok result)) rec.new store.now lens.now rows.new }
{
    let n = rec.count;
    let k = selection::find::victim(rows, n, request_id)?;
    let info = rows::tc_info(rows, n, k);
    table_edit::remove(rows, n, k, 1);
    rec.count = n - 1;
    Some(info.addr)
}

// The entry goes, and its packet with it; where the packet is missing, the entry still goes, and the store's refusal is inside.
pub fn delete_by_request_id_and_from_pool(
    setup: Setup,
    rec: &mut Record,
    store: &mut [u8],
    lens: &mut [u16],
    rows: &mut [u64],
    request_id: u64,
) -> Option<Result<(), StoreRefusal>>
    requires { Sound setup rec.old store.old lens.old rows.old }
    ensures { Does setup rec.old store.old lens.old rows.old
        (delete_by_id_in request_id)
        (freed_paper (Ok result)) rec.new store.new lens.new rows.new }
{
    let n = rec.count;
    let k = selection::find::victim(rows, n, request_id)?;
    let info = rows::tc_info(rows, n, k);
    table_edit::remove(rows, n, k, 1);
    rec.count = n - 1;
    Some(store::judged::delete(setup.store, store, lens, info.addr))
}
