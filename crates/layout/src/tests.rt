// The loops of the first three refusals' tests.
ghost use Rattle.std.specs.Prelude.{◌≡◌, ◌<◌, ◌≤◌};
ghost use Rattle.std.specs.List.{list_all};
ghost use Rattle.rules.specs.Tests.{all_below};
ghost use Rattle.layout.specs.Limits.{max_subpools, store_free};
ghost use Rattle.layout.specs.Judge.{len_ok, pool_ok, pool_ok_at};

use crate::{MAX_SLOT_SIZE, MAX_SLOTS, Setup};

#[tactic(auto, unfolding(rules::specs::Tests::all_of))]
fn pool_ok(last: usize, size: usize, slots: usize) -> bool
    ensures { result ≡ pool_ok last size slots }
{
    last < size && size <= MAX_SLOT_SIZE && 1 <= slots && slots <= MAX_SLOTS
}

pub fn pools_ok(setup: Setup) -> bool
    requires { setup.pools ≤ max_subpools }
    ensures { result ≡ all_below (pool_ok_at setup) setup.pools }
{
    let mut last = 0;
    for k in 0..setup.pools {
        let size = crate::size_at(setup, k);
        if !pool_ok(last, size, crate::slots_at(setup, k)) {
            return false;
        }
        last = size;
    }
    true
}

// Each of the lengths of one subpool is free or within its slot. One more than the mark of a free slot is 0 in 16 bits, so that the greatest
// of them all tells; nothing is left early, so that it is vectorised.
pub fn pool_lens_ok(lens: &[u16], size: u16) -> bool
    requires { size < store_free }
    ensures { result ≡ list_all (len_ok size) lens.now }
{
    let greatest = lens
        .iter()
        .fold(0u16, |most, w| most.max(w.wrapping_add(1)));
    greatest <= size + 1
}
