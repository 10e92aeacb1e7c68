// A packet's bytes, for a caller that has judged: copied to a buffer, or the place of them to lend. Nothing changes but a read buffer.
#![tactic(auto)]

ghost use Rattle.std.specs.Prelude.{◌≡◌};
ghost use Rattle.rules.specs.Papers.{says};
ghost use Rattle.layout.specs.Judge.{Sound};
ghost use Rattle.slots.specs.View.{view};
ghost use Rattle.lookup.specs.Refusals.{length_paper};
ghost use Rattle.lookup.specs.Calls.{packet_in};
ghost use Rattle.lookup.specs.Promise.{Reads};
ghost use Rattle.reading.specs.Reading.{read_in, Lends};

use layout::Setup;
use lookup::Span;
use slots::{StoreRefusal, bytes};

pub fn read(
    setup: Setup,
    store: &[u8],
    lens: &[u16],
    addr: u64,
    buf: &mut [u8],
) -> Result<usize, StoreRefusal>
    requires { Sound setup store.now lens.now }
    ensures { Reads
        (read_in (view setup store.now lens.now) addr buf.old)
        buf.old (length_paper result) buf.new }
{
    let s = lookup::find(setup, store, lens, addr)?;
    let from = s.from;
    let n = s.len;
    let found = buf.len();
    if found < n {
        return Err(StoreRefusal::BufferTooSmall { found, expected: n });
    }
    bytes::copy_in(buf, &store[from..from + n]);
    Ok(n)
}

pub fn modify(setup: Setup, store: &[u8], lens: &[u16], addr: u64) -> Result<usize, StoreRefusal>
    requires { Sound setup store.now lens.now }
    ensures { length_paper result ≡ says (packet_in (view setup store.now lens.now) addr) }
{
    let s = lookup::find(setup, store, lens, addr)?;
    Ok(s.len)
}

pub fn lent(setup: Setup, store: &[u8], lens: &[u16], addr: u64) -> Span
    requires { Sound setup store.now lens.now }
    ensures { Lends setup store.now lens.now addr result }
{
    lookup::find(setup, store, lens, addr).unwrap_or(Span { from: 0, len: 0 })
}
