// The records of a release log, a line for each: when, what became of the command, whose it is, its flag and its bytes.
ghost use Rattle.std.specs.Prelude.{◌≡◌};
ghost use Rattle.shift_totals.specs.Tally.{tally_found, tally_log};

use crate::{answers, clock};
use log_reader::Item;
use shift_totals::Totals;
use text::out;
use time::UnixTime;

fn fate(rt: &impl Print, flag: u8) {
    match flag {
        1 => out::say(rt, b"  released,  "),
        0 => out::say(rt, b"  discarded, "),
        _ => out::say(rt, b"  MISSING,   "),
    }
}

fn packet(rt: &impl Print, log: &[u8], from: usize, to: usize) {
    if from <= to && to <= log.len() {
        out::bytes(rt, &log[from..to]);
    }
}

fn line(rt: &impl Print, at: UnixTime, log: &[u8], it: Item) {
    clock::show(rt, b"    ", at);
    fate(rt, it.flag);
    answers::request(rt, it.id);
    out::number(rt, b", flag ", it.flag as u64);
    out::say(rt, b": ");
    packet(rt, log, it.from, it.to);
    out::say(rt, b"\n");
}

fn one(rt: &impl Print, t: Totals, at: UnixTime, log: &[u8], f: Option<Item>) -> Totals
    ensures { result ≡ tally_found f t }
{
    match f {
        Some(it) => {
            line(rt, at, log, it);
            t.with(it.flag)
        }
        None => {
            out::say(rt, b"    a record lies outside the log\n");
            t
        }
    }
}

// Writes every record, and counts it.
pub fn all(rt: &impl Print, start: Totals, at: UnixTime, log: &[u8]) -> Totals
    ensures { result ≡ tally_log log.now start }
{
    let n = log_reader::count(log);
    let mut t = start;
    for i in 0..n {
        t = one(rt, t, at, log, log_reader::record_at(log, i));
    }
    t
}
