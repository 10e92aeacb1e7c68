// Packets at their boundaries (document 01, module 2), and a packet in another's user data behind a stamp.
ghost use Rattle.std.specs.Prelude.{◌≤◌, length};

use crate::times;
use packet::{Fault, Header};
use text::line::Line;
use text::out;

// The bytes from word 1 on; or so many of the longest packet's.
pub fn packet(rt: &impl Print, line: Line) {
    if line.word(1) == b"of".as_slice() {
        longest(rt, line.index(2).min(65543));
        return;
    }
    let mut room = [0; 64];
    answer(rt, line.bytes(1, &mut room));
}

// P's header with the length field at its most, zeros as user data, the check code, and a byte behind it.
fn longest(rt: &impl Print, n: usize)
    requires { n ≤ 65543 }
{
    let mut space = [0u8; 65543];
    make(&mut space);
    answer(rt, &space[0..n]);
}

fn make(space: &mut [u8])
    requires { 65543 ≤ length space.old }
{
    words::write(space, 0, 8, 0x1802C011FFFF2F11);
    words::write(space, 8, 1, 1);
    let code = check_code::of(&space[0..65540]);
    words::write(space, 65540, 2, code as u64);
}

// What the reader says of any bytes, and the part that it hands back as user data.
fn answer(rt: &impl Print, bytes: &[u8]) {
    match packet::read(bytes) {
        Ok(h) => header(rt, h),
        Err(f) => unreadable(rt, f),
    }
    out::say(rt, b", user data ");
    part(rt, packet::user_data(bytes));
}

fn header(rt: &impl Print, h: Header) {
    out::number(rt, b" service ", h.service as u64);
    out::number(rt, b", subservice ", h.subservice as u64);
    out::number(rt, b", source ", h.source_id as u64);
    out::number(rt, b", APID ", h.apid as u64);
    out::number(rt, b", sequence count ", h.seq_count as u64);
    out::number(rt, b", total ", h.total as u64);
    out::say(rt, b", request ID ");
    out::long(rt, h.request_id().as_u64());
}

fn unreadable(rt: &impl Print, f: Fault) {
    match f {
        Fault::Length => out::say(rt, b" unreadable, length"),
        Fault::Total => out::say(rt, b" unreadable, total"),
        Fault::HeaderBits => out::say(rt, b" unreadable, header bits"),
        Fault::VersionNibble => out::say(rt, b" unreadable, version nibble"),
        Fault::CheckBytes => out::say(rt, b" unreadable, check bytes"),
    }
}

// Bytes, or how many there are where they would fill a screen.
fn part(rt: &impl Print, s: &[u8]) {
    if s.len() <= 32 {
        out::bytes(rt, s);
        return;
    }
    out::number(rt, b"", s.len() as u64);
    out::say(rt, b" bytes");
}

// The readers one after the other: a packet, the stamp in its user data, and the packet behind the stamp.
pub fn wrapped(rt: &impl Print, line: Line) {
    let mut room = [0; 64];
    let bytes = line.bytes(2, &mut room);
    match packet::read(bytes) {
        Ok(h) => opened(rt, h.user_data(bytes)),
        Err(f) => unreadable(rt, f),
    }
}

fn opened(rt: &impl Print, data: &[u8]) {
    let Some(s) = stamp::read(data) else {
        out::say(rt, b" stamp refused");
        return;
    };
    times::instant(rt, b" ", s.time);
    out::say(rt, b",");
    if s.len <= data.len() {
        answer(rt, &data[s.len..]);
    }
}
