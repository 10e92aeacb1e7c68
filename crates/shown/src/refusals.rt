// Refusals as words: document 01's number, the name, the values.
use record::ScheduleRefusal;
use slots::{StoreIdError, StoreRefusal};
use text::out;
use time::{Margin, UnixTime};

fn value(rt: &impl Print, n: u64) {
    out::number(rt, b" ", n);
}

fn late(rt: &impl Print, clock: UnixTime, m: Margin, release: UnixTime) {
    out::time(rt, b" clock ", clock);
    out::margin(rt, b" margin ", m);
    out::time(rt, b" release ", release);
}

fn id_value(rt: &impl Print, e: StoreIdError) {
    match e {
        StoreIdError::InvalidSubpool(k) => value(rt, k as u64),
        StoreIdError::InvalidPacketIdx(i) => value(rt, i as u64),
    }
}

fn store_values(rt: &impl Print, e: StoreRefusal) {
    match e {
        StoreRefusal::DataTooLarge(n) => value(rt, n as u64),
        StoreRefusal::StoreFull(k) => value(rt, k as u64),
        StoreRefusal::InvalidStoreId(b) => id_value(rt, b),
        StoreRefusal::DataDoesNotExist(a) => value(rt, a),
        StoreRefusal::BufferTooSmall { found, expected } => {
            value(rt, found as u64);
            value(rt, expected as u64);
        }
        _ => {}
    }
}

fn schedule_values(rt: &impl Print, e: ScheduleRefusal) {
    match e {
        ScheduleRefusal::Store(s) => store_values(rt, s),
        ScheduleRefusal::WrongService(n) => value(rt, n as u64),
        ScheduleRefusal::WrongSubservice(n) => value(rt, n as u64),
        ScheduleRefusal::ReleaseTimeInTimeMargin {
            clock,
            margin: m,
            release,
        } => late(rt, clock, m, release),
        ScheduleRefusal::LogTooSmall(n) => value(rt, n as u64),
        _ => {}
    }
}

pub fn of_store(rt: &impl Print, e: StoreRefusal) {
    refusal_names::name(rt, refusal_numbers::of_store(e));
    store_values(rt, e);
}

pub fn of_schedule(rt: &impl Print, e: ScheduleRefusal) {
    refusal_names::name(rt, refusal_numbers::of_schedule(e));
    schedule_values(rt, e);
}
