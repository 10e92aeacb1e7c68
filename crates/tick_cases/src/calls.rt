// The calls beside the tick. They are given whole tables, and their answers are not looked at.
use crate::Large;
use crate::kind::Call;
use text::line::Line;
use time::Margin;

// The largest packet that is added.
const LONGEST: usize = 4096;

// Document 01's packet P.
const P: &[u8] = b"\x18\x02\xC0\x11\x00\x06\x2F\x11\x01\x00\x00\xDD\xB5";

pub fn run(bench: &mut Large, call: Call, line: Line) {
    match call {
        Call::Start => start(bench, line),
        Call::Insert => insert(bench, line),
        Call::Packet => packet(bench, line),
        Call::Add => add(bench, line),
        Call::Vanish => vanish(bench, line),
        Call::Clock => {
            let _ = record::set_clock(&mut bench.rec, line.time_of(1, 3));
        }
        Call::Enable => {
            let _ = record::enable(&mut bench.rec);
        }
        Call::Disable => {
            let _ = record::disable(&mut bench.rec);
        }
    }
}

// A fresh start, with no margin.
fn start(bench: &mut Large, line: Line) {
    let _ = starting::fresh_start(
        bench.setup,
        &mut bench.rec,
        &mut bench.store,
        &mut bench.lens,
        &mut bench.rows,
        line.time_of(2, 4),
        Margin { secs: 0, nanos: 0 },
    );
}

fn packet(bench: &mut Large, line: Line) {
    let _ = insertions_public::insert_unwrapped_tc(
        bench.setup,
        &mut bench.rec,
        &mut bench.store,
        &mut bench.lens,
        &mut bench.rows,
        line.time_of(3, 5),
        P,
    );
}

// Inserts a number of entries: their time, then request ID and address of the first, then by how much each rises.
fn insert(bench: &mut Large, line: Line) {
    let release = line.time_of(3, 5);
    let id_step = line.number(13);
    let addr_step = line.number(15);
    let mut id = line.number(8);
    let mut addr = line.number(10);
    for _ in 0..line.index(1) {
        let _ = insertions_public::insert_unwrapped_and_stored_tc(
            bench.setup,
            &mut bench.rec,
            &bench.store,
            &bench.lens,
            &mut bench.rows,
            release,
            id,
            addr,
        );
        id = id.wrapping_add(id_step);
        addr = addr.wrapping_add(addr_step);
    }
}

// Adds a number of packets of a length. The first begins with a given byte, each later one with the next; so do a packet's bytes go on.
fn add(bench: &mut Large, line: Line) {
    let n = line.index(4).min(LONGEST);
    let mut first = line.number(7);
    for _ in 0..line.index(1) {
        let mut packet = [0; LONGEST];
        count_up(&mut packet, first);
        let _ = store_public::add(
            bench.setup.store,
            &mut bench.store,
            &mut bench.lens,
            &packet[..n],
        );
        first = first.wrapping_add(1);
    }
}

// v, v + 1, .. modulo 199, so that no byte of a packet is 238, as those of a log are before the tick.
fn count_up(packet: &mut [u8], v: u64) {
    let numbers = (0..199).cycle().skip((v % 199) as usize);
    for (byte, n) in packet.iter_mut().zip(numbers) {
        *byte = n;
    }
}

// The store deletes the packet at an address.
fn vanish(bench: &mut Large, line: Line) {
    let _ = store_public::delete(
        bench.setup.store,
        &mut bench.store,
        &mut bench.lens,
        line.number(1),
    );
}
