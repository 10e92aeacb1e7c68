// The calls, on what is lent.
use crate::kind::Call;
use lent::Lent;
use record::{Record, ScheduleRefusal};
use text::line::Line;
use windows::TimeWindow;

// Does a call and writes its answer.
pub fn run(rt: &impl Print, on: Lent, call: Call, line: Line) {
    let Lent {
        setup,
        rec,
        store,
        lens,
        rows,
    } = on;
    let mut room = [0; 64];
    match call {
        Call::Clock => shown::done(rt, put(rec, in_place::set_clock(*rec, line.time(1)))),
        Call::Enable => shown::done(rt, put(rec, in_place::enable(*rec))),
        Call::Disable => shown::done(rt, put(rec, in_place::disable(*rec))),
        Call::Count => shown::counted(rt, counting::count(setup, *rec, store, lens, rows)),
        Call::Retrieve => shown::retrieved(
            rt,
            deletions_public::retrieve_by_time_filter(setup, *rec, store, lens, rows, window(line)),
        ),
        Call::Stored => shown::done(
            rt,
            insertions_public::insert_unwrapped_and_stored_tc(
                setup,
                rec,
                store,
                lens,
                rows,
                line.time(1),
                line.number(3),
                line.number(4),
            ),
        ),
        Call::Take => shown::taken(
            rt,
            by_id_public::delete_by_request_id(setup, rec, store, lens, rows, line.number(1)),
        ),
        Call::Start => shown::done(
            rt,
            starting::fresh_start(setup, rec, store, lens, rows, line.time(1), line.margin(3)),
        ),
        Call::Unwrapped => shown::inserted(
            rt,
            insertions_public::insert_unwrapped_tc(
                setup,
                rec,
                store,
                lens,
                rows,
                line.time(1),
                line.bytes(3, &mut room),
            ),
        ),
        Call::Wrapped => shown::inserted(
            rt,
            insertions_public::insert_wrapped_tc(
                setup,
                rec,
                store,
                lens,
                rows,
                line.bytes(1, &mut room),
            ),
        ),
        Call::Delete => shown::cleared(
            rt,
            deletions_public::delete_by_time_filter(setup, rec, store, lens, rows, window(line)),
        ),
        Call::Reset => shown::cleared(rt, deletions_public::reset(setup, rec, store, lens, rows)),
        Call::Free => shown::freed(
            rt,
            by_id_public::delete_by_request_id_and_from_pool(
                setup,
                rec,
                store,
                lens,
                rows,
                line.number(1),
            ),
        ),
    }
}

// The record that a call left takes the place of the one that it was given, refused or not.
fn put(
    rec: &mut Record,
    left: (Record, Result<(), ScheduleRefusal>),
) -> Result<(), ScheduleRefusal> {
    let (next, answer) = left;
    *rec = next;
    answer
}

// all; fromto and two times; from or to and a time.
fn window(line: Line) -> TimeWindow {
    let t = line.time(2);
    match line.word(1) {
        b"fromto" => TimeWindow::FromTo(t, line.time(4)),
        b"from" => TimeWindow::From(t),
        b"to" => TimeWindow::To(t),
        _ => TimeWindow::All,
    }
}
