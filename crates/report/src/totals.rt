// The totals of a shift, written out.
use shift_totals::Totals;
use text::out;

// The report's last lines.
pub fn show(rt: &impl Print, pending: usize, t: Totals) {
    out::number(rt, b"  pending    ", pending as u64);
    out::number(rt, b"\n  released   ", t.released);
    out::number(rt, b", of these behind a missing packet ", t.behind);
    out::number(rt, b"\n  discarded  ", t.discarded);
    out::number(rt, b"\n  missing    ", t.missing);
    out::say(rt, b"\n");
}
