// A crate above the store, which sees its promise alone.
#![tactic(auto)]

ghost use Rattle.std.specs.Prelude.{◌≡◌, [], ◌∷◌, ◌≤◌};
ghost use Rattle.layout.specs.Judge.{Sound};
ghost use Rattle.rules.specs.Papers.{no};
ghost use Rattle.lookup.specs.Calls.{judging};
ghost use Rattle.store.specs.Promise.{Does, Writes};
ghost use Rattle.client.specs.Sweep.{sweep_in};
ghost use Rattle.client.specs.Answers.{swept_paper};

use layout::Setup;
use slots::StoreRefusal;

// Deletes the packet at each address in turn, and counts those that were there. The tables were judged.
pub fn sweep_judged(setup: Setup, bytes: &mut [u8], lens: &mut [u16], addrs: &[u64]) -> usize
    requires { Sound setup bytes.old lens.old }
    ensures { Does setup bytes.old lens.old
        (sweep_in addrs.now)
        (no 0 (result ∷ [])) bytes.new lens.new }
{
    let mut gone: usize = 0;
    for addr in addrs {
        gone += usize::from(store::judged::delete(setup, bytes, lens, *addr).is_ok());
    }
    gone
}

pub fn sweep(
    setup: Setup,
    bytes: &mut [u8],
    lens: &mut [u16],
    addrs: &[u64],
) -> Result<usize, StoreRefusal>
    ensures { Writes setup bytes.old lens.old
        (judging setup bytes.old lens.old (sweep_in addrs.now))
        (swept_paper result) bytes.new lens.new }
{
    store_public::judge(setup, bytes.len(), lens)?;
    Ok(sweep_judged(setup, bytes, lens, addrs))
}
