// The calls that change the store, for a caller that has judged: the tables are sound, and stay so.
ghost use Rattle.std.specs.Prelude.{◌≡◌, ◌<◌};
ghost use Rattle.address.specs.Address.{address_of};
ghost use Rattle.layout.specs.Judge.{Sized, Sound};
ghost use Rattle.layout.specs.Limits.{max_slots, max_subpools};
ghost use Rattle.store.specs.Refusals.{done_paper, added_paper};
ghost use Rattle.slots.specs.View.{Leaves, view};
ghost use Rattle.store.specs.Calls.{delete_in, add_in, fresh_pools};
ghost use Rattle.rules.specs.Papers.{says};
ghost use Rattle.store.specs.Promise.{Does};

use address::StaticPoolAddr;
use layout::{STORE_FREE, Setup};
use slots::{Cell, StoreRefusal, bytes, search};

pub fn add(
    setup: Setup,
    store: &mut [u8],
    lens: &mut [u16],
    packet: &[u8],
) -> Result<u64, StoreRefusal>
    requires { Sound setup store.old lens.old }
    ensures { Does setup store.old lens.old
        (λ ps. add_in setup.spill ps packet.now)
        (added_paper result) store.new lens.new }
{
    let len = packet.len();
    let cell = search::choose(setup, lens, len)?;
    let row = cell.row;
    let from = cell.from;
    let end = from + cell.size;
    lens[row] = len as u16;
    bytes::copy_in(&mut store[from..end], packet);
    Ok(address_of(cell))
}

// What `add` would answer, with nothing written: a caller that refuses for a reason of its own has to give the store's 11 and 12 first.
pub fn would_add(
    setup: Setup,
    store: &[u8],
    lens: &[u16],
    packet: &[u8],
) -> Result<u64, StoreRefusal>
    requires { Sound setup store.now lens.now }
    ensures { added_paper result
        ≡ says (add_in setup.spill (view setup store.now lens.now) packet.now) }
{
    let cell = search::choose(setup, lens, packet.len())?;
    Ok(address_of(cell))
}

// The address that names a slot of the setup.
fn address_of(cell: Cell) -> u64
    requires { (cell.pool < max_subpools) × (cell.slot < max_slots) }
    ensures { result ≡ address_of cell.pool cell.slot }
{
    let address = StaticPoolAddr {
        pool_idx: cell.pool as u16,
        packet_idx: cell.slot as u16,
    };
    address.encode()
}

pub fn delete(
    setup: Setup,
    store: &mut [u8],
    lens: &mut [u16],
    addr: u64,
) -> Result<(), StoreRefusal>
    requires { Sound setup store.old lens.old }
    ensures { Does setup store.old lens.old
        (λ ps. delete_in ps addr)
        (done_paper result) store.new lens.new }
{
    let cell = search::locate(setup, lens, addr)?;
    let row = cell.row;
    let from = cell.from;
    let end = from + cell.size;
    lens[row] = STORE_FREE;
    bytes::zero_fill(&mut store[from..end]);
    Ok(())
}

// Every slot free and zeroed, for a caller that has judged 1 and 2.
#[tactic(auto, using(layout::proofs::Bounds::sized_fits))]
pub fn fresh(setup: Setup, store: &mut [u8], lens: &mut [u16])
    requires { Sized setup store.old lens.old }
    ensures { Leaves setup store.old lens.old (fresh_pools setup)
        store.new lens.new }
{
    let all = layout::bytes_before(setup, setup.pools);
    let rows = layout::rows(setup);
    bytes::zero_fill(&mut store[..all]);
    bytes::mark_free(&mut lens[..rows]);
}
