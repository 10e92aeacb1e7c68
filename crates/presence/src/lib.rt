// Whether a packet is there, and how long it is, for a caller that has judged. Nothing changes.
#![tactic(auto)]

ghost use Rattle.std.specs.Prelude.{◌≡◌};
ghost use Rattle.rules.specs.Papers.{says};
ghost use Rattle.layout.specs.Judge.{Sound};
ghost use Rattle.slots.specs.View.{view};
ghost use Rattle.lookup.specs.Refusals.{length_paper, presence_paper};
ghost use Rattle.presence.specs.Presence.{has_in, len_in};

use address::StaticPoolAddr;
use layout::{STORE_FREE, Setup};
use slots::{StoreRefusal, search};

pub fn has_element_at(
    setup: Setup,
    store: &[u8],
    lens: &[u16],
    addr: u64,
) -> Result<bool, StoreRefusal>
    requires { Sound setup store.now lens.now }
    ensures { presence_paper result ≡ says (has_in (view setup store.now lens.now) addr) }
{
    let a = StaticPoolAddr::decode(addr);
    let cell = search::validate(setup, a)?;
    let row = cell.row;
    Ok(lens[row] != STORE_FREE)
}

pub fn len_of_data(
    setup: Setup,
    store: &[u8],
    lens: &[u16],
    addr: u64,
) -> Result<usize, StoreRefusal>
    requires { Sound setup store.now lens.now }
    ensures { length_paper result ≡ says (len_in (view setup store.now lens.now) addr) }
{
    let a = StaticPoolAddr::decode(addr);
    let cell = search::validate(setup, a)?;
    let row = cell.row;
    let w = lens[row];
    if w == STORE_FREE {
        return Ok(0);
    }
    Ok(usize::from(w))
}
