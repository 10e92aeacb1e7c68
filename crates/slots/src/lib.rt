// The slots of a store: where one lies in what is lent, the search for one, and the leaves that write one.
#![tactic(auto)]

ghost use Rattle.std.specs.Prelude.{◌≡◌, ◌<◌};
ghost use Rattle.layout.specs.Limits.{max_subpools};
ghost use Rattle.slots.specs.Inside.{cell_of};

use layout::Setup;

pub mod bytes;
pub mod search;

#[derive(Clone, Copy)]
pub enum StoreIdError {
    InvalidSubpool(u16),
    InvalidPacketIdx(u16),
}

#[derive(Clone, Copy)]
pub enum StoreRefusal {
    BadSetup,
    BadBuffers,
    StateDamaged,
    DataTooLarge(usize),
    StoreFull(u16),
    InvalidStoreId(StoreIdError),
    DataDoesNotExist(u64),
    BufferTooSmall { found: usize, expected: usize },
}

// A slot in the lent lists: its row of the length table, and where its bytes lie.
#[derive(Clone, Copy)]
pub struct Cell {
    pub pool: usize,
    pub slot: usize,
    pub row: usize,
    pub from: usize,
    pub size: usize,
}

pub fn cell_at(setup: Setup, k: usize, s: usize) -> Cell
    requires { (k < max_subpools) × (s < 65536) }
    ensures { result ≡ cell_of setup k s }
{
    let size = layout::size_at(setup, k);
    let row = layout::rows_before(setup, k) + s;
    let from = layout::bytes_before(setup, k) + s * size;
    Cell {
        pool: k,
        slot: s,
        row,
        from,
        size,
    }
}
