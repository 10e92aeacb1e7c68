// The turns of a tick over the lent store, length table, rows and log, for a caller that has judged.
#![tactic(auto)]

ghost use Rattle.std.specs.Prelude.{◌≡◌, ◌<◌, ◌≤◌, length};
ghost use Rattle.release_log.specs.Log.{max_log_bytes};
ghost use Rattle.layout.specs.Judge.{Sound as StoreSound};
ghost use Rattle.slots.specs.View.{view};
ghost use Rattle.rows.specs.Entries.{unpack};
ghost use Rattle.rows.specs.Order.{Held};
ghost use Rattle.turns.specs.Released.{Released, first_total};

// The log that the first entry's record needs alone.
pub fn first_total(
    setup: layout::Setup,
    store: &[u8],
    lens: &[u16],
    rows: &[u64],
    count: usize,
) -> usize
    requires store_sound { StoreSound setup store.now lens.now }
    requires held { Held rows.now count }
    ensures { result ≡ first_total (unpack count rows.now) (view setup store.now lens.now) }
{
    if count < 1 {
        return 8;
    }
    let info = rows::tc_info(rows, count, 0);
    match lookup::find(setup, store, lens, info.addr) {
        Err(_) => 29,
        Ok(s) => 29 + s.len,
    }
}

// Hands out as many of the first n of count rows as fit into cap bytes of the log, and takes their rows out. It answers how many.
pub fn release(
    setup: layout::Setup,
    store: &mut [u8],
    lens: &mut [u16],
    rows: &mut [u64],
    log: &mut [u8],
    count: usize,
    n: usize,
    cap: usize,
    on: bool,
    delete: bool,
) -> usize
    requires store_sound { StoreSound setup store.old lens.old }
    requires held { Held rows.old count }
    requires n_le_count { n ≤ count }
    requires le_cap { (8 ≤ cap) × (cap ≤ max_log_bytes) × (cap ≤ length log.old) }
    ensures { Released setup delete on n cap count store.old lens.old rows.old log.old
        result store.new lens.new rows.new log.new }
{
    let m = measure::measure(setup, store, lens, rows, n, cap, delete);
    handing::hand_out(setup, store, lens, rows, log, m, on, delete);
    table_edit::remove(rows, count, 0, m);
    m
}
