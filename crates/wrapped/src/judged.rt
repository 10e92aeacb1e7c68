// The wrapped insertion, for a caller that has judged: the outer packet is opened, and its user data is a stamp and the command.
ghost use Rattle.std.specs.Prelude.{◌≡◌, Ok};
ghost use Rattle.packet.specs.Packet.{read_of, user_data_of};
ghost use Rattle.stamp.specs.Stamp.{stamp_of};
ghost use Rattle.storing.specs.Answers.{inserted_paper};
ghost use Rattle.wrapped.specs.Wrapped.{insert_wrapped_in, opened, stamped};
ghost use Rattle.schedule.specs.Judge.{Sound};
ghost use Rattle.schedule.specs.Promise.{Does};

use insertions::inserting;
use packet::Header;
use record::{Record, ScheduleRefusal};
use rows::TcInfo;
use schedule::Setup;

pub fn insert_wrapped_tc(
    setup: Setup,
    rec: &mut Record,
    store: &mut [u8],
    lens: &mut [u16],
    rows: &mut [u64],
    outer: &[u8],
) -> Result<TcInfo, ScheduleRefusal>
    requires { Sound setup rec.old store.old lens.old rows.old }
    ensures { Does setup rec.old store.old lens.old rows.old
        (insert_wrapped_in setup outer.now)
        (inserted_paper result) rec.new store.new lens.new rows.new }
{
    let Ok(h) = packet::read(outer) else {
        return Err(ScheduleRefusal::TcUnreadable);
    };
    insert_opened(setup, rec, store, lens, rows, outer, h)
}

fn insert_opened(
    setup: Setup,
    rec: &mut Record,
    store: &mut [u8],
    lens: &mut [u16],
    rows: &mut [u64],
    outer: &[u8],
    h: Header,
) -> Result<TcInfo, ScheduleRefusal>
    requires sound { Sound setup rec.old store.old lens.old rows.old }
    requires outer_value { read_of 2 outer.now ≡ Ok h }
    ensures { Does setup rec.old store.old lens.old rows.old
        (λ s. opened setup (user_data_of 2 outer.now) s (Ok h))
        (inserted_paper result) rec.new store.new lens.new rows.new }
{
    if h.service != 11 {
        return Err(ScheduleRefusal::WrongService(h.service));
    }
    if h.subservice != 4 {
        return Err(ScheduleRefusal::WrongSubservice(h.subservice));
    }
    let data = h.user_data(outer);
    if data.is_empty() {
        return Err(ScheduleRefusal::TcDataEmpty);
    }
    insert_stamped(setup, rec, store, lens, rows, data)
}

fn insert_stamped(
    setup: Setup,
    rec: &mut Record,
    store: &mut [u8],
    lens: &mut [u16],
    rows: &mut [u64],
    data: &[u8],
) -> Result<TcInfo, ScheduleRefusal>
    requires { Sound setup rec.old store.old lens.old rows.old }
    ensures { Does setup rec.old store.old lens.old rows.old
        (λ s. stamped setup «data».now s (stamp_of «data».now))
        (inserted_paper result) rec.new store.new lens.new rows.new }
{
    let Some(stamp) = stamp::read(data) else {
        return Err(ScheduleRefusal::BadTimestamp);
    };
    inserting::insert_tc(
        setup,
        rec,
        store,
        lens,
        rows,
        stamp.time,
        &data[stamp.len..],
    )
}
