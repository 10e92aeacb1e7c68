// The turns of entries that are all handed out: a record each, and in delete mode the packet gone at its turn. For a caller that has judged.
#![tactic(auto)]

ghost use Rattle.layout.specs.Judge.{Sound as StoreSound};
ghost use Rattle.slots.specs.View.{view};
ghost use Rattle.rows.specs.Entries.{unpack};
ghost use Rattle.rows.specs.Order.{Held};
ghost use Rattle.handing.specs.Handing.{Roomy, HandsOut};

// The turns of the first m rows, into the log.
pub fn hand_out(
    setup: layout::Setup,
    store: &mut [u8],
    lens: &mut [u16],
    rows: &[u64],
    log: &mut [u8],
    m: usize,
    on: bool,
    delete: bool,
)
    requires store_sound { StoreSound setup store.old lens.old }
    requires held { Held rows.now m }
    requires roomy { Roomy delete on (unpack m rows.now) (view setup store.old lens.old) log.old }
    ensures { HandsOut setup delete on (unpack m rows.now) store.old lens.old log.old
        store.new lens.new log.new }
{
    let mut at = 8 + 4 * m;
    for i in 0..m {
        let info = rows::tc_info(rows, m, i);
        release_log::put_number(log, 8 + 4 * i, at);
        let n = turn::hand_one(
            setup,
            store,
            lens,
            log,
            at,
            info.request_id,
            info.addr,
            on,
            delete,
        );
        at += n;
    }
    release_log::put_number(log, 0, m);
    release_log::put_number(log, 4, at);
}
