// Text, numbers, times and bytes on standard output. That a write fails is not noticed.
use crate::form::{Bytes, Digits, Each, Rows, Time};
use crate::line::Line;
use crate::{form, say};
use std::fmt::Display;
use time::{Margin, UnixTime};

// What `print!` writes.
#[macro_export]
macro_rules! say {
    ($rt:expr; $($what:tt)*) => {{
        let _ = print!($rt; $($what)*);
    }};
}

// Bytes as they are.
pub fn say(rt: &impl Print, text: &[u8]) {
    let _ = rt.write_all(text);
}

// A number behind a text.
pub fn number(rt: &impl Print, text: &[u8], n: u64) {
    say(rt, text);
    say!(rt; "{n}");
}

pub fn signed(rt: &impl Print, text: &[u8], n: i64) {
    say(rt, text);
    say!(rt; "{n}");
}

// Seconds and nanoseconds.
pub fn time(rt: &impl Print, text: &[u8], t: UnixTime) {
    say(rt, text);
    say!(rt; "{}", Time(t));
}

pub fn margin(rt: &impl Print, text: &[u8], m: Margin) {
    say(rt, text);
    say!(rt; "{}", form::Margin(m));
}

// A space and a number for each.
pub fn numbers<T: Display>(rt: &impl Print, part: &[T]) {
    say!(rt; "{}", Each(part));
}

// A mark before each four.
pub fn rows(rt: &impl Print, part: &[u64]) {
    say!(rt; "{}", Rows(part));
}

// A byte as two digits.
pub fn byte(rt: &impl Print, b: u8) {
    say!(rt; "{}", Digits(&[b]));
}

// Bytes with a space between them.
pub fn bytes(rt: &impl Print, part: &[u8]) {
    say!(rt; "{}", Bytes(part));
}

// A number of 16 bits, as four digits; of 64 bits, as sixteen.
pub fn short(rt: &impl Print, v: u16) {
    say!(rt; "{}", Digits(&v.to_be_bytes()));
}

pub fn long(rt: &impl Print, v: u64) {
    say!(rt; "{}", Digits(&v.to_be_bytes()));
}
