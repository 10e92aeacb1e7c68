// Refusals in words: document 01's number, and why.
use crate::clock;
use record::ScheduleRefusal;
use slots::{StoreIdError, StoreRefusal};
use text::out;
use time::{Margin, UnixTime};

fn id_words(rt: &impl Print, e: StoreIdError) {
    match e {
        StoreIdError::InvalidSubpool(k) => out::number(rt, b"there is no subpool ", k as u64),
        StoreIdError::InvalidPacketIdx(i) => out::number(rt, b"its subpool has no slot ", i as u64),
    }
}

fn store_words(rt: &impl Print, e: StoreRefusal) {
    match e {
        StoreRefusal::BadSetup => out::say(rt, b"a size of the setup is out of bounds"),
        StoreRefusal::BadBuffers => out::say(rt, b"a lent table is too short"),
        StoreRefusal::StateDamaged => out::say(rt, b"the record or a table is damaged"),
        StoreRefusal::DataTooLarge(n) => out::number(rt, b"no slot holds its bytes, ", n as u64),
        StoreRefusal::StoreFull(k) => out::number(
            rt,
            b"the store has no free slot for it in subpool ",
            k as u64,
        ),
        StoreRefusal::InvalidStoreId(b) => id_words(rt, b),
        StoreRefusal::DataDoesNotExist(a) => out::number(rt, b"there is no packet at address ", a),
        StoreRefusal::BufferTooSmall { found, expected } => {
            out::number(rt, b"the buffer has bytes ", found as u64);
            out::number(rt, b" and the packet ", expected as u64);
        }
    }
}

fn late(rt: &impl Print, now: UnixTime, m: Margin, release: UnixTime) {
    clock::show(rt, b"its release ", release);
    clock::show(rt, b" lies before the clock ", now);
    out::number(rt, b" and the margin, seconds ", m.secs);
}

fn schedule_words(rt: &impl Print, e: ScheduleRefusal) {
    match e {
        ScheduleRefusal::Store(s) => store_words(rt, s),
        ScheduleRefusal::BadTime => out::say(rt, b"a time or margin is out of range"),
        ScheduleRefusal::WrongService(n) => out::number(
            rt,
            b"its service is not 11 but ",
            n as u64,
        ),
        ScheduleRefusal::WrongSubservice(n) => out::number(
            rt,
            b"its subservice is not 4 but ",
            n as u64,
        ),
        ScheduleRefusal::TcDataEmpty => out::say(rt, b"it has no user data"),
        ScheduleRefusal::BadTimestamp => out::say(rt, b"its time stamp is unreadable"),
        ScheduleRefusal::TcUnreadable => out::say(rt, b"the packet is unreadable"),
        ScheduleRefusal::NestedScheduledTc => out::say(
            rt,
            b"the command in it is again one to be scheduled",
        ),
        ScheduleRefusal::ReleaseTimeInTimeMargin {
            clock: now,
            margin: m,
            release,
        } => late(rt, now, m, release),
        ScheduleRefusal::ScheduleFull => out::say(rt, b"the schedule is full"),
        ScheduleRefusal::ReversedWindow => out::say(rt, b"the window ends before it starts"),
        ScheduleRefusal::LogTooSmall(n) => out::number(
            rt,
            b"the log has no room, bytes needed ",
            n as u64,
        ),
    }
}

pub fn of_store(rt: &impl Print, e: StoreRefusal) {
    out::number(rt, b": refused (", refusal_numbers::of_store(e));
    out::say(rt, b"), ");
    store_words(rt, e);
    out::say(rt, b"\n");
}

pub fn of_schedule(rt: &impl Print, e: ScheduleRefusal) {
    out::number(rt, b": refused (", refusal_numbers::of_schedule(e));
    out::say(rt, b"), ");
    schedule_words(rt, e);
    out::say(rt, b"\n");
}
