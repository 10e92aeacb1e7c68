// Answers of the store as words: document 01's number, the name, the values.
use crate::refusals;
use slots::StoreRefusal;
use text::out;

pub fn verdict(rt: &impl Print, a: Result<(), StoreRefusal>) {
    match a {
        Ok(()) => out::say(rt, b"0 Fine"),
        Err(e) => refusals::of_store(rt, e),
    }
}

pub fn started(rt: &impl Print, a: Result<(), StoreRefusal>) {
    match a {
        Ok(()) => out::say(rt, b"0 Done"),
        Err(e) => refusals::of_store(rt, e),
    }
}

// The address of what was added.
pub fn added(rt: &impl Print, a: Result<u64, StoreRefusal>) {
    match a {
        Ok(addr) => out::number(rt, b"0 At ", addr),
        Err(e) => refusals::of_store(rt, e),
    }
}

pub fn length(rt: &impl Print, a: Result<usize, StoreRefusal>) {
    match a {
        Ok(n) => out::number(rt, b"0 Of ", n as u64),
        Err(e) => refusals::of_store(rt, e),
    }
}

pub fn presence(rt: &impl Print, a: Result<bool, StoreRefusal>) {
    match a {
        Ok(b) => if b {
            out::say(rt, b"0 Is 1")
        } else {
            out::say(rt, b"0 Is 0")
        },
        Err(e) => refusals::of_store(rt, e),
    }
}

pub fn deleted(rt: &impl Print, a: Result<(), StoreRefusal>) {
    match a {
        Ok(()) => out::say(rt, b"0 Done"),
        Err(e) => refusals::of_store(rt, e),
    }
}
