// The release tick at every boundary: each line of the input is done, and a tick is written out with its answer, its log and what it changed.
#![tactic(auto)]

mod calls;
mod edits;
mod kind;
mod ticked;
mod view;

use kind::Kind;
use lent::Bench;
use text::line::{Line, Lines};
use text::{input, out, say};

// Room for the largest store, 256 slots, 4,096 entries, and some beyond each but the store.
const BYTES: usize = 1048576;

const LENGTHS: usize = 258;

const WORDS: usize = 16388;

type Large = Bench<BYTES, LENGTHS, WORDS>;

fn main(rt: HostRuntime) {
    let mut room = input::large_buffer();
    let mut bench = edits::bench();
    edits::lay_ground(&mut bench);
    for line in Lines(input::read(&mut rt.stdin(), &mut room)) {
        out::say(&rt, line.0);
        one(&rt, &mut bench, line);
        say!(&rt; "\n");
    }
}

fn one(rt: &impl Print, bench: &mut Large, line: Line) {
    match Kind::of(line) {
        Kind::Tick => ticked::run(rt, bench, line),
        Kind::View => view::run(rt, bench, line),
        Kind::Call(call) => calls::run(bench, call, line),
        Kind::Edit(edit) => edits::run(bench, edit, line),
        Kind::Remark => {}
    }
}
