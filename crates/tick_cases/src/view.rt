// A view of what is lent.
use crate::{BYTES, LENGTHS, Large, WORDS};
use text::form::{Each, Hex, Rows};
use text::line::Line;
use text::say;

// The first bytes of the store, the first lengths, the first words of the rows: as many as the line says.
pub fn run(rt: &impl Print, bench: &Large, line: Line) {
    let store = &bench.store[..line.index(1).min(BYTES)];
    let lens = &bench.lens[..line.index(3).min(LENGTHS)];
    let rows = &bench.rows[..line.index(5).min(WORDS)];
    say!(rt; " => {} |{}{}", Hex(store), Each(lens), Rows(rows));
}
