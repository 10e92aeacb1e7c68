// A packet looked up, for a caller that has judged: where it lies.
#![tactic(auto)]

ghost use Rattle.layout.specs.Judge.{Sound};
ghost use Rattle.lookup.specs.Promise.{Finds};

use layout::Setup;
use slots::{StoreRefusal, search};

// The bytes of a packet in the store.
#[derive(Clone, Copy)]
pub struct Span {
    pub from: usize,
    pub len: usize,
}

// Where the packet of an address lies.
pub fn find(setup: Setup, store: &[u8], lens: &[u16], addr: u64) -> Result<Span, StoreRefusal>
    requires { Sound setup store.now lens.now }
    ensures { Finds setup store.now lens.now addr result }
{
    let cell = search::locate(setup, lens, addr)?;
    let row = cell.row;
    Ok(Span {
        from: cell.from,
        len: usize::from(lens[row]),
    })
}
