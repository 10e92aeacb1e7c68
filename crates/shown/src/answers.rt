// Answers of the schedule as words: document 01's number, the name, the values.
use crate::refusals;
use record::ScheduleRefusal;
use rows::TcInfo;
use selection::Part;
use slots::StoreRefusal;
use sweep::Tally;
use text::out;
use tick::Handed;

pub fn done(rt: &impl Print, a: Result<(), ScheduleRefusal>) {
    match a {
        Ok(()) => out::say(rt, b"0 Ok"),
        Err(e) => refusals::of_schedule(rt, e),
    }
}

pub fn counted(rt: &impl Print, a: Result<usize, ScheduleRefusal>) {
    match a {
        Ok(n) => out::number(rt, b"0 Count ", n as u64),
        Err(e) => refusals::of_schedule(rt, e),
    }
}

// The packet's address, then its request ID.
pub fn inserted(rt: &impl Print, a: Result<TcInfo, ScheduleRefusal>) {
    match a {
        Ok(i) => {
            out::number(rt, b"0 Inserted at ", i.addr);
            out::number(rt, b" id ", i.request_id);
        }
        Err(e) => refusals::of_schedule(rt, e),
    }
}

pub fn retrieved(rt: &impl Print, a: Result<Part, ScheduleRefusal>) {
    match a {
        Ok(p) => {
            out::number(rt, b"0 Rows from ", p.first as u64);
            out::number(rt, b" number ", p.number as u64);
        }
        Err(e) => refusals::of_schedule(rt, e),
    }
}

fn last(rt: &impl Print, l: Option<StoreRefusal>) {
    match l {
        None => out::say(rt, b" last none"),
        Some(e) => {
            out::say(rt, b" last ");
            refusals::of_store(rt, e);
        }
    }
}

pub fn cleared(rt: &impl Print, a: Result<Tally, ScheduleRefusal>) {
    match a {
        Ok(t) => {
            out::number(rt, b"0 Done deleted ", t.deleted as u64);
            out::number(rt, b" missing ", t.missing as u64);
            let l = t.last;
            last(rt, l);
        }
        Err(e) => refusals::of_schedule(rt, e),
    }
}

pub fn taken(rt: &impl Print, a: Result<Option<u64>, ScheduleRefusal>) {
    match a {
        Ok(None) => out::say(rt, b"0 NoMatch"),
        Ok(Some(n)) => out::number(rt, b"0 Address ", n),
        Err(e) => refusals::of_schedule(rt, e),
    }
}

pub fn freed(rt: &impl Print, a: Result<Option<Result<(), StoreRefusal>>, ScheduleRefusal>) {
    match a {
        Ok(None) => out::say(rt, b"0 NoMatch"),
        Ok(Some(Ok(()))) => out::say(rt, b"0 Deleted"),
        Ok(Some(Err(e))) => {
            out::say(rt, b"0 Missing ");
            refusals::of_store(rt, e);
        }
        Err(e) => refusals::of_schedule(rt, e),
    }
}

// How many entries were handed out, and how many due ones remain.
pub fn ticked(rt: &impl Print, a: Result<Handed, ScheduleRefusal>) {
    match a {
        Ok(h) => {
            out::number(rt, b"0 HandedOut ", h.m as u64);
            out::number(rt, b" remain ", h.remain as u64);
        }
        Err(e) => refusals::of_schedule(rt, e),
    }
}
