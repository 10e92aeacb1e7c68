// The scheduler's calls at every boundary: each line of the input is done, and written out with what came back and what it changed.
#![tactic(auto)]

mod calls;
mod edits;
mod kind;
mod state;

use kind::{Call, Kind};
use lent::Bench;
use text::line::{Line, Lines};
use text::{input, out, say};

// 112 bytes, 5 lengths and 4 rows are the setup's; what lies beyond them is never written.
type Small = Bench<120, 7, 20>;

fn main(rt: HostRuntime) {
    let mut room = input::large_buffer();
    let mut bench = edits::bench();
    for line in Lines(input::read(&mut rt.stdin(), &mut room)) {
        out::say(&rt, line.0);
        match Kind::of(line) {
            Kind::Call(call) => called(&rt, &mut bench, call, line),
            Kind::Edit(edit) => edits::run(&mut bench, edit, line),
            Kind::Show => state::show(&rt, &bench, line),
            Kind::Remark => {}
        }
        say!(&rt; "\n");
    }
}

// What a call changed is found by comparison with a copy.
fn called(rt: &impl Print, bench: &mut Small, call: Call, line: Line) {
    let old = *bench;
    say!(rt; " => ");
    calls::run(rt, bench.lend(), call, line);
    say!(rt; " ; changed:");
    let record = bench.rec != old.rec;
    if record {
        say!(rt; " record");
    }
    let tables = bench.say_changed(rt, &old);
    if !record && !tables {
        say!(rt; " nothing");
    }
}
