// What the scheduler is lent, written out.
use crate::Small;
use record::Record;
use text::form::{Each, Hex, Margin, Rows, Time};
use text::line::Line;
use text::say;

// The part of it that a line names.
pub fn show(rt: &impl Print, bench: &Small, line: Line) {
    match line.word(1) {
        b"record" => record(rt, bench.rec),
        b"store" => bytes(rt, &bench.store),
        b"lengths" => say!(rt; " =>{}", Each(&bench.lens)),
        b"rows" => say!(rt; " =>{}", Rows(&bench.rows)),
        _ => {}
    }
}

fn record(rt: &impl Print, r: Record) {
    let enabled = if r.enabled { "enabled" } else { "disabled" };
    say!(rt; " => count {} clock {} margin {} {enabled}", r.count, Time(r.clock), Margin(r.margin));
}

// In sixteens.
fn bytes(rt: &impl Print, store: &[u8]) {
    say!(rt; " =>");
    for part in store.chunks(16) {
        say!(rt; " {}", Hex(part));
    }
}
