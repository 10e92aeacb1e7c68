// The calls that change what is lent.
ghost use Rattle.std.specs.Prelude.{◌≤◌};

use layout::Setup;
use slots::StoreRefusal;
use text::line::Line;
use text::out;

// A fresh start, and the judge.
pub fn start(rt: &impl Print, setup: Setup, store: &mut [u8], lens: &mut [u16]) {
    out::say(rt, b": fresh ");
    shown::started(rt, store_public::fresh(setup, store, lens));
    out::say(rt, b", judge ");
    shown::verdict(rt, store_public::judge(setup, store.len(), lens));
}

// A packet of given bytes; or of a number of bytes, all of one value.
pub fn add(rt: &impl Print, setup: Setup, store: &mut [u8], lens: &mut [u16], line: Line) {
    out::say(rt, b": ");
    let mut room = [0; 64];
    let a = if line.word(1) == b"bytes".as_slice() {
        store_public::add(setup, store, lens, line.bytes(2, &mut room))
    } else {
        put(setup, store, lens, line.index(1).min(4096), line.byte(3))
    };
    shown::added(rt, a);
}

fn put(
    setup: Setup,
    store: &mut [u8],
    lens: &mut [u16],
    n: usize,
    v: u8,
) -> Result<u64, StoreRefusal>
    requires { n ≤ 4096 }
{
    let packet = [v; 4096];
    store_public::add(setup, store, lens, &packet[..n])
}

// A number of such packets, as far as there is room.
pub fn fill(setup: Setup, store: &mut [u8], lens: &mut [u16], line: Line) {
    let n = line.index(4).min(4096);
    for _ in 0..line.index(1) {
        let _ = put(setup, store, lens, n, 1);
    }
}

pub fn delete(rt: &impl Print, setup: Setup, store: &mut [u8], lens: &mut [u16], addr: u64) {
    out::say(rt, b": ");
    shown::deleted(rt, store_public::delete(setup, store, lens, addr));
}

// Given bytes are written through the part that is lent, as many as it has.
pub fn modify(rt: &impl Print, setup: Setup, store: &mut [u8], lens: &[u16], line: Line) {
    let addr = line.number(1);
    let mut room = [0; 64];
    let given = line.bytes(3, &mut room);
    out::say(rt, b": ");
    shown::length(rt, store_public::modify(setup, store, lens, addr));
    let part = store_public::modify_part(setup, store, lens, addr);
    out::number(rt, b", lent ", part.len() as u64);
    for (to, from) in part.iter_mut().zip(given) {
        *to = *from;
    }
}

// The same in one call.
pub fn modify_with(rt: &impl Print, setup: Setup, store: &mut [u8], lens: &[u16], line: Line) {
    let mut room = [0; 64];
    let given = line.bytes(3, &mut room);
    out::say(rt, b": ");
    shown::length(
        rt,
        modifying::modify_with(setup, store, lens, line.number(1), given),
    );
}

// A length of the table, where it has it.
pub fn set_length(lens: &mut [u16], i: usize, v: u16) {
    if i < lens.len() {
        lens[i] = v;
    }
}
