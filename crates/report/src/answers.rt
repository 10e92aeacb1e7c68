// Answers in words, each behind its request, with document 01's number.
ghost use Rattle.std.specs.Prelude.{◌≡◌, ◌<◌};
ghost use Rattle.packet.specs.Packet.{id_word};

use crate::refusals;
use packet::RequestId;
use record::ScheduleRefusal;
use rows::TcInfo;
use slots::StoreRefusal;
use text::out;
use tick::Handed;

// The ID whose number this is.
fn id_of(id: u64) -> RequestId
    ensures { id < 281474976710656 → id_word result ≡ id }
{
    RequestId {
        source_id: (id / 4294967296 % 65536) as u16,
        apid: (id / 65536 % 65536) as u16,
        seq_count: (id % 65536) as u16,
    }
}

// Whose command it is.
pub fn request(rt: &impl Print, id: u64) {
    let r = id_of(id);
    out::number(rt, b"APID ", r.apid as u64);
    out::number(rt, b", sequence count ", r.seq_count as u64);
}

pub fn done(rt: &impl Print, a: Result<(), ScheduleRefusal>) {
    match a {
        Ok(()) => out::say(rt, b": accepted (0)\n"),
        Err(e) => refusals::of_schedule(rt, e),
    }
}

pub fn inserted(rt: &impl Print, a: Result<TcInfo, ScheduleRefusal>) {
    match a {
        Ok(i) => {
            out::number(rt, b": accepted (0), stored at address ", i.addr);
            out::say(rt, b", ");
            request(rt, i.request_id);
            out::say(rt, b"\n");
        }
        Err(e) => refusals::of_schedule(rt, e),
    }
}

pub fn deleted(rt: &impl Print, a: Result<(), StoreRefusal>) {
    match a {
        Ok(()) => out::say(rt, b": deleted (0)\n"),
        Err(e) => refusals::of_store(rt, e),
    }
}

// How many entries were handed out, and how many due ones remain.
pub fn ticked(rt: &impl Print, a: Result<Handed, ScheduleRefusal>) {
    match a {
        Ok(h) => {
            out::number(rt, b": accepted (0), handed out ", h.m as u64);
            out::number(rt, b", due and left ", h.remain as u64);
            out::say(rt, b"\n");
        }
        Err(e) => refusals::of_schedule(rt, e),
    }
}
