// A tick: its answer, its log, and what it changed, found by comparison with a copy.
use crate::Large;
use lent::Lent;
use record::Record;
use text::form::Hex;
use text::line::Line;
use text::say;

// Longer than the part that a tick uses.
const LOG_ROOM: usize = 1048584;

// What each byte of a log is before the tick.
const BLANK: u8 = 238;

pub fn run(rt: &impl Print, bench: &mut Large, line: Line) {
    let old = *bench;
    let mut log = blank();
    tick(rt, bench, line, &mut log);
    show_log(rt, written(&log));
    changes(rt, old.rec, bench.rec);
    bench.say_changed(rt, &old);
}

// In a function of its own, so that no proof unfolds so long an array.
fn blank() -> [u8; LOG_ROOM] {
    [BLANK; LOG_ROOM]
}

// Keep or delete, the log's length, and the limit.
fn tick(rt: &impl Print, bench: &mut Large, line: Line, log: &mut [u8]) {
    let n = line.index(3).min(log.len());
    let Lent {
        setup,
        rec,
        store,
        lens,
        rows,
    } = bench.lend();
    let answer = tick_public::tick(
        setup,
        rec,
        store,
        lens,
        rows,
        &mut log[..n],
        line.index(5),
        line.word(1) == b"delete,".as_slice(),
    );
    say!(rt; " => ");
    shown::ticked(rt, answer);
}

// The part of a log up to the last byte that is not as all were.
fn written(log: &[u8]) -> &[u8] {
    match log.iter().rposition(|b| *b != BLANK) {
        Some(last) => &log[..last + 1],
        None => b"",
    }
}

// How many bytes were written, and which; of more than 160 the first eight, and the check code of all.
fn show_log(rt: &impl Print, log: &[u8]) {
    say!(rt; " ; log: {} bytes ", log.len());
    if log.len() <= 160 {
        say!(rt; "{}", Hex(log));
    } else {
        say!(rt; "{} .. check code {}", Hex(&log[..8]), check_code::of(log));
    }
}

// The record's count is written out.
fn changes(rt: &impl Print, old: Record, new: Record) {
    say!(rt; " ; count {} to {} ; changed:", old.count, new.count);
    let counted = Record {
        count: new.count,
        ..old
    };
    if new != counted {
        say!(rt; " clock, margin or mark");
    }
}
