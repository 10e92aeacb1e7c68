// The search of the lent lists: for the slot that an address names, and for room.
ghost use Rattle.std.specs.Prelude.{◌≡◌, true, List, ℕ, ◌≤◌, ◌<◌, ◌==◌, length, nat_le, position, take};
ghost use Rattle.layout.specs.Limits.{max_subpools, store_free};
ghost use Rattle.layout.specs.Layout.{all_rows};
ghost use Rattle.layout.specs.Judge.{setup_ok};
ghost use Rattle.slots.specs.Pools.{find, choose as chosen};
ghost use Rattle.slots.specs.View.{view};
ghost use Rattle.slots.specs.Inside.{spot_of, room_of, validated, last_tried, room_in};

use crate::{Cell, StoreIdError, StoreRefusal};
use address::StaticPoolAddr;
use layout::{STORE_FREE, Setup};

// The slot that an address names, where the setup has it.
#[tactic(auto, unfolding(crate::specs::Inside::validated, rules::specs::Tests::unless))]
pub fn validate(setup: Setup, a: StaticPoolAddr) -> Result<Cell, StoreRefusal>
    requires { setup.pools ≤ max_subpools }
    ensures { result ≡ validated setup a.pool_idx a.packet_idx }
{
    let k = usize::from(a.pool_idx);
    let s = usize::from(a.packet_idx);
    if setup.pools <= k {
        return Err(StoreRefusal::InvalidStoreId(StoreIdError::InvalidSubpool(a.pool_idx)));
    }
    if layout::slots_at(setup, k) <= s {
        return Err(StoreRefusal::InvalidStoreId(StoreIdError::InvalidPacketIdx(a.packet_idx)));
    }
    Ok(crate::cell_at(setup, k, s))
}

// The slot of the packet that an address names.
pub fn locate(setup: Setup, lens: &[u16], addr: u64) -> Result<Cell, StoreRefusal>
    requires { (setup.pools ≤ max_subpools) × (all_rows setup ≤ length lens.now) }
    ensures { (st : List ℕ) → result ≡ spot_of setup addr (find (view setup st lens.now) addr) }
{
    let a = StaticPoolAddr::decode(addr);
    let cell = validate(setup, a)?;
    let row = cell.row;
    if lens[row] == STORE_FREE {
        return Err(StoreRefusal::DataDoesNotExist(a.encode()));
    }
    Ok(cell)
}

// The first subpool whose slots hold len bytes.
fn find_subpool(setup: Setup, len: usize) -> Option<usize>
    requires { setup.pools ≤ max_subpools }
    ensures { result ≡ position (nat_le len) (take setup.pools setup.sizes) }
{
    setup.sizes[..setup.pools]
        .iter()
        .position(|size| len <= usize::from(*size))
}

// The lowest free slot of a subpool, by its lengths.
fn find_free(lens: &[u16]) -> Option<usize>
    ensures { result ≡ position (λ n. n == store_free) lens.now }
{
    lens.iter().position(|n| *n == STORE_FREE)
}

// The subpools that `add` tries end here: all that are left where it spills, and else the first.
#[tactic(auto, unfolding(crate::specs::Inside::last_tried))]
fn last_tried(setup: Setup, k: usize) -> usize
    requires { k < setup.pools }
    ensures { result ≡ last_tried setup k }
{
    if setup.spill { setup.pools } else { k + 1 }
}

// The first free slot in the subpools from first up to last.
#[tactic(auto, using(layout::proofs::Layouts::rows_within))]
fn find_room(setup: Setup, lens: &[u16], first: usize, last: usize) -> Result<Cell, StoreRefusal>
    requires { (first < last) × (last ≤ setup.pools) × (setup.pools ≤ max_subpools) × (all_rows setup ≤ length lens.now) }
    ensures { result ≡ room_in setup lens.now first last }
{
    for k in first..last {
        let base = layout::rows_before(setup, k);
        let end = base + layout::slots_at(setup, k);
        if let Some(s) = find_free(&lens[base..end]) {
            return Ok(crate::cell_at(setup, k, s));
        }
    }
    Err(StoreRefusal::StoreFull((last - 1) as u16))
}

// Where `add` puts len bytes.
pub fn choose(setup: Setup, lens: &[u16], len: usize) -> Result<Cell, StoreRefusal>
    requires { (setup_ok setup ≡ true) × (setup.pools ≤ max_subpools) × (all_rows setup ≤ length lens.now) }
    ensures { (st : List ℕ) → result ≡ room_of setup len (chosen setup.spill (view setup st lens.now) len) }
{
    let Some(k) = find_subpool(setup, len) else {
        return Err(StoreRefusal::DataTooLarge(len));
    };
    find_room(setup, lens, k, last_tried(setup, k))
}
