// Requests that start a schedule, add to it or set its record, to the proved library: the number that was returned; the answer's words
// are in what is lent.
#![tactic(auto)]

use oracle_words::tables::{Setup, Tables};
use silotwist::{insert_calls, record_calls, schedule_calls};
use text::line::Line;

pub fn start(request: Line<'_>, t: &mut Tables) -> u32 {
    t.setup = Setup::read(request);
    let clock = request.time(3);
    let margin = request.margin(5);
    schedule_calls::silotwist_fresh(
        t.setup.lent(),
        &mut t.record,
        &mut t.store,
        &mut t.lens,
        &mut t.rows,
        clock.secs,
        clock.nanos,
        margin.secs,
        margin.nanos,
        &mut t.answer,
    )
}

pub fn clock(request: Line<'_>, t: &mut Tables) -> u32 {
    let clock = request.time(1);
    record_calls::silotwist_set_clock(&mut t.record, clock.secs, clock.nanos, &mut t.answer)
}

pub fn enable(t: &mut Tables) -> u32 {
    record_calls::silotwist_enable(&mut t.record, &mut t.answer)
}

pub fn disable(t: &mut Tables) -> u32 {
    record_calls::silotwist_disable(&mut t.record, &mut t.answer)
}

pub fn count(t: &mut Tables) -> u32 {
    schedule_calls::silotwist_count(
        t.setup.lent(),
        &t.record,
        &t.store,
        &t.lens,
        &t.rows,
        &mut t.answer,
    )
}

pub fn wrapped(request: Line<'_>, t: &mut Tables) -> u32 {
    let packet = request.bytes(1, &mut t.bytes);
    insert_calls::silotwist_insert_wrapped(
        t.setup.lent(),
        &mut t.record,
        &mut t.store,
        &mut t.lens,
        &mut t.rows,
        packet,
        &mut t.answer,
    )
}

pub fn unwrapped(request: Line<'_>, t: &mut Tables) -> u32 {
    let release = request.time(1);
    let packet = request.bytes(3, &mut t.bytes);
    insert_calls::silotwist_insert_unwrapped(
        t.setup.lent(),
        &mut t.record,
        &mut t.store,
        &mut t.lens,
        &mut t.rows,
        release.secs,
        release.nanos,
        packet,
        &mut t.answer,
    )
}

pub fn stored(request: Line<'_>, t: &mut Tables) -> u32 {
    let release = request.time(1);
    insert_calls::silotwist_insert_stored(
        t.setup.lent(),
        &mut t.record,
        &mut t.store,
        &mut t.lens,
        &mut t.rows,
        release.secs,
        release.nanos,
        request.number(3),
        request.number(4),
        &mut t.answer,
    )
}
