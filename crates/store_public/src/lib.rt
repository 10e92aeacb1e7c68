// The store's public calls: each judges the lent lists, and then does what the judged call does.
#![tactic(auto)]

ghost use Rattle.std.specs.Prelude.{◌≡◌, [], ◌+◌};
ghost use Rattle.rules.specs.Papers.{says, done};
ghost use Rattle.layout.specs.Judge.{judged as fineOr};
ghost use Rattle.lookup.specs.Refusals.{length_paper, presence_paper};
ghost use Rattle.store.specs.Refusals.{added_paper, done_paper};
ghost use Rattle.lookup.specs.Calls.{packet_in, judging};
ghost use Rattle.store.specs.Calls.{delete_in, add_in, fresh_in};
ghost use Rattle.lookup.specs.Promise.{Reads};
ghost use Rattle.presence.specs.Presence.{has_in, len_in};
ghost use Rattle.reading.specs.Reading.{Lends, lent_bytes, lent_from, read_in};
ghost use Rattle.store.specs.Promise.{Writes};

use layout::Setup;
use lookup::Span;
use slots::StoreRefusal;
use store::judged;

// Refusals 1 to 3 in their order: every call below starts with them. room is the length of the lent store.
pub fn judge(setup: Setup, room: usize, lens: &[u16]) -> Result<(), StoreRefusal>
    ensures { done_paper result ≡ says (fineOr setup room lens.now (done [] (tt {0}))) }
{
    if !layout::setup_ok(setup) {
        return Err(StoreRefusal::BadSetup);
    }
    if !layout::buffers_ok(setup, room, lens.len()) {
        return Err(StoreRefusal::BadBuffers);
    }
    if !layout::lens_ok(setup, lens) {
        return Err(StoreRefusal::StateDamaged);
    }
    Ok(())
}

pub fn add(
    setup: Setup,
    store: &mut [u8],
    lens: &mut [u16],
    packet: &[u8],
) -> Result<u64, StoreRefusal>
    ensures { Writes setup store.old lens.old
        (judging setup store.old lens.old (λ ps. add_in setup.spill ps packet.now))
        (added_paper result) store.new lens.new }
{
    judge(setup, store.len(), lens)?;
    judged::add(setup, store, lens, packet)
}

// The packet goes to the front of buf; the rest of buf stays.
pub fn read(
    setup: Setup,
    store: &[u8],
    lens: &[u16],
    addr: u64,
    buf: &mut [u8],
) -> Result<usize, StoreRefusal>
    ensures { Reads
        (judging setup store.now lens.now (λ ps. read_in ps addr buf.old))
        buf.old (length_paper result) buf.new }
{
    judge(setup, store.len(), lens)?;
    reading::read(setup, store, lens, addr, buf)
}

// The length of the packet that `modify_part` lends, or why it lends none.
pub fn modify(setup: Setup, store: &[u8], lens: &[u16], addr: u64) -> Result<usize, StoreRefusal>
    ensures { length_paper result ≡ says (judging setup store.now lens.now (λ ps. packet_in ps addr)) }
{
    judge(setup, store.len(), lens)?;
    reading::modify(setup, store, lens, addr)
}

// What `modify_part` lends: nothing at the start of the store where `modify` refuses.
fn lent(setup: Setup, store: &[u8], lens: &[u16], addr: u64) -> Span
    ensures { Lends setup store.now lens.now addr result }
{
    if judge(setup, store.len(), lens).is_err() {
        return Span { from: 0, len: 0 };
    }
    reading::lent(setup, store, lens, addr)
}

// The packet's bytes as a writable part of the store.
pub fn modify_part<'a, 'b>(
    setup: Setup,
    store: &'a mut [u8],
    lens: &'b [u16],
    addr: u64,
) -> &'a mut [u8]
    ensures { (result.now ≡ lent_bytes setup store.old lens.now addr)
        × (result.ref_ptr.0 ≡ store.entry.ref_ptr.0)
        × (result.ref_ptr.1 ≡ lent_from setup store.old lens.now addr + store.entry.ref_ptr.1) }
{
    let s = lent(setup, store, lens, addr);
    let from = s.from;
    let end = from + s.len;
    &mut store[from..end]
}

pub fn delete(
    setup: Setup,
    store: &mut [u8],
    lens: &mut [u16],
    addr: u64,
) -> Result<(), StoreRefusal>
    ensures { Writes setup store.old lens.old
        (judging setup store.old lens.old (λ ps. delete_in ps addr))
        (done_paper result) store.new lens.new }
{
    judge(setup, store.len(), lens)?;
    judged::delete(setup, store, lens, addr)
}

pub fn has_element_at(
    setup: Setup,
    store: &[u8],
    lens: &[u16],
    addr: u64,
) -> Result<bool, StoreRefusal>
    ensures { presence_paper result ≡ says (judging setup store.now lens.now (λ ps. has_in ps addr)) }
{
    judge(setup, store.len(), lens)?;
    presence::has_element_at(setup, store, lens, addr)
}

pub fn len_of_data(
    setup: Setup,
    store: &[u8],
    lens: &[u16],
    addr: u64,
) -> Result<usize, StoreRefusal>
    ensures { length_paper result ≡ says (judging setup store.now lens.now (λ ps. len_in ps addr)) }
{
    judge(setup, store.len(), lens)?;
    presence::len_of_data(setup, store, lens, addr)
}

// The store's half of the fresh start.
pub fn fresh(setup: Setup, store: &mut [u8], lens: &mut [u16]) -> Result<(), StoreRefusal>
    ensures { Writes setup store.old lens.old
        (fresh_in setup store.old lens.old)
        (done_paper result) store.new lens.new }
{
    if !layout::setup_ok(setup) {
        return Err(StoreRefusal::BadSetup);
    }
    if !layout::buffers_ok(setup, store.len(), lens.len()) {
        return Err(StoreRefusal::BadBuffers);
    }
    judged::fresh(setup, store, lens);
    Ok(())
}
