// One turn of a tick over the lent store, length table and log, for a caller that has judged: an entry's record, and in delete mode its packet gone.
#![tactic(auto)]

ghost use Rattle.std.specs.Prelude.{◌≡◌, ◌+◌, ◌≤◌, length};
ghost use Rattle.layout.specs.Judge.{Sound as StoreSound};
ghost use Rattle.slots.specs.Pools.{find};
ghost use Rattle.slots.specs.View.{Leaves, view};
ghost use Rattle.turn.specs.Turned.{Turned};
ghost use Rattle.turn.specs.Turns.{leave, packet_of};

// In delete mode, deletes the packet of an address. Whether there was one, the caller has seen.
fn drop_packet(setup: layout::Setup, store: &mut [u8], lens: &mut [u16], addr: u64, delete: bool)
    requires { StoreSound setup store.old lens.old }
    ensures { Leaves setup store.old lens.old
        (leave delete (view setup store.old lens.old) addr)
        store.new lens.new }
{
    if delete {
        let _ = store::judged::delete(setup, store, lens, addr);
    }
}

// One turn: the record from `at` on, and in delete mode the packet gone. It answers the record's length.
pub fn hand_one(
    setup: layout::Setup,
    store: &mut [u8],
    lens: &mut [u16],
    log: &mut [u8],
    at: usize,
    id: u64,
    addr: u64,
    on: bool,
    delete: bool,
) -> usize
    requires store_sound { StoreSound setup store.old lens.old }
    requires addr_in_bounds { at + 17 + length (packet_of (find (view setup store.old lens.old) addr)) ≤ length log.old }
    ensures { Turned setup delete on id addr store.old lens.old log.old
        at result store.new lens.new log.new }
{
    match lookup::find(setup, store, lens, addr) {
        Err(_) => {
            release_log::put_record(log, at, 2, id, addr, &store[0..0]);
            17
        }
        Ok(s) => {
            let from = s.from;
            let n = s.len;
            let end = from + n;
            release_log::put_record(log, at, u8::from(on), id, addr, &store[from..end]);
            drop_packet(setup, store, lens, addr, delete);
            17 + n
        }
    }
}
