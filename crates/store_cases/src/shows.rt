// Lines that ask: the store's own questions, addresses, and what is lent.
use address::StaticPoolAddr;
use layout::Setup;
use text::line::Line;
use text::out;

// The packet at an address, into as much of the buffer as is lent.
pub fn read(rt: &impl Print, setup: Setup, store: &[u8], lens: &[u16], buf: &mut [u8], line: Line) {
    let n = line.index(3).min(buf.len());
    out::say(rt, b": ");
    shown::length(
        rt,
        store_public::read(setup, store, lens, line.number(1), &mut buf[..n]),
    );
}

pub fn judge(rt: &impl Print, setup: Setup, store: &[u8], lens: &[u16]) {
    out::say(rt, b": ");
    shown::verdict(rt, store_public::judge(setup, store.len(), lens));
}

// How many of the lengths 0 to 65535 the first slot may be given, of three rows over 64 bytes.
pub fn good(rt: &impl Print, setup: Setup) {
    let fine = (0..=u16::MAX)
        .filter(|n| store_public::judge(setup, 64, &[*n, 65535, 65535]).is_ok())
        .count();
    out::number(rt, b": ", fine as u64);
}

// The address that a line's word 1 is.
pub fn addr(line: Line) -> u64 {
    if line.word(1) == b"INVALID_ADDR".as_slice() {
        StaticPoolAddr::INVALID_ADDR
    } else {
        line.number(1)
    }
}

// What four calls say of an address.
pub fn about(rt: &impl Print, setup: Setup, store: &[u8], lens: &[u16], addr: u64) {
    let mut own = [0; 64];
    out::say(rt, b": has ");
    shown::presence(rt, store_public::has_element_at(setup, store, lens, addr));
    out::say(rt, b", len ");
    shown::length(rt, store_public::len_of_data(setup, store, lens, addr));
    out::say(rt, b", modify ");
    shown::length(rt, store_public::modify(setup, store, lens, addr));
    out::say(rt, b", read ");
    shown::length(rt, store_public::read(setup, store, lens, addr, &mut own));
}

pub fn encode(rt: &impl Print, pool_idx: u16, packet_idx: u16) {
    let a = StaticPoolAddr {
        pool_idx,
        packet_idx,
    };
    out::number(rt, b": address ", a.encode());
}

pub fn decode(rt: &impl Print, addr: u64) {
    let a = StaticPoolAddr::decode(addr);
    out::number(rt, b": address ", addr);
    out::number(rt, b", subpool ", u64::from(a.pool_idx));
    out::number(rt, b", slot ", u64::from(a.packet_idx));
    if StaticPoolAddr::is_invalid(addr) {
        out::say(rt, b", invalid");
    }
}

// Bytes of the store from one place to another; the first lengths; or, of any other word, the first bytes of the buffer.
pub fn show(rt: &impl Print, store: &[u8], lens: &[u16], buf: &[u8], line: Line) {
    out::say(rt, b":");
    match line.word(1) {
        b"store" => {
            let end = line.index(4).min(store.len());
            let start = line.index(2).min(end);
            out::numbers(rt, &store[start..end]);
        }
        b"lengths" => {
            let end = line.index(2).min(lens.len());
            out::numbers(rt, &lens[..end]);
        }
        _ => {
            let end = line.index(2).min(buf.len());
            out::numbers(rt, &buf[..end]);
        }
    }
}
