// The day of a command: planning desk, uplink, store, its second, dispatch, report. Each line of the input is a request, done and told.
#![tactic(auto)]

mod requests;
mod shift;

use report::totals;
use text::input;
use text::line::Lines;

fn main(rt: HostRuntime) {
    let mut text = input::large_buffer();
    let n = input::read_full(&mut rt.stdin(), &mut text);
    all(&rt, &text[..n]);
}

fn all(rt: &impl Print, text: &[u8]) {
    let mut s = shift::begun();
    for line in Lines(text) {
        requests::one(rt, &mut s, line);
    }
    totals::show(rt, s.rec.count, s.totals);
}
