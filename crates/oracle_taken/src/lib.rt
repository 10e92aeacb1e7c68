// Windows, deletions and releases, asked of the proved library: the number that was returned; the answer's words, and what is handed out,
// are in what is lent.
#![tactic(auto)]

use oracle_words::tables::Tables;
use silotwist::{delete_calls, schedule_calls, tick_call};
use text::line::Line;
use time::UnixTime;

// The ends that a window has: kind 0 none, 1 both, 2 the first, 3 the last.
struct Ends {
    has_from: bool,
    from: UnixTime,
    has_to: bool,
    to: UnixTime,
}

impl Ends {
    fn read(request: Line<'_>) -> Ends {
        let kind = request.number(1);
        Ends {
            has_from: matches!(kind, 1 | 2),
            from: request.time(2),
            has_to: matches!(kind, 1 | 3),
            to: request.time(4),
        }
    }
}

pub fn window(request: Line<'_>, t: &mut Tables) -> u32 {
    let Ends {
        has_from,
        from,
        has_to,
        to,
    } = Ends::read(request);
    schedule_calls::silotwist_window(
        t.setup.lent(),
        &t.record,
        &t.store,
        &t.lens,
        &t.rows,
        has_from,
        from.secs,
        from.nanos,
        has_to,
        to.secs,
        to.nanos,
        &mut t.answer,
    )
}

// The deletion of all has no window's kind.
pub fn delete_window(request: Line<'_>, t: &mut Tables) -> u32 {
    let Ends {
        has_from,
        from,
        has_to,
        to,
    } = Ends::read(request);
    delete_calls::silotwist_delete_window(
        t.setup.lent(),
        &mut t.record,
        &mut t.store,
        &mut t.lens,
        &mut t.rows,
        has_from,
        from.secs,
        from.nanos,
        has_to,
        to.secs,
        to.nanos,
        &mut t.answer,
    )
}

pub fn reset(t: &mut Tables) -> u32 {
    schedule_calls::silotwist_reset(
        t.setup.lent(),
        &mut t.record,
        &mut t.store,
        &mut t.lens,
        &mut t.rows,
        &mut t.answer,
    )
}

pub fn delete_by_id_keep(request: Line<'_>, t: &mut Tables) -> u32 {
    delete_calls::silotwist_delete_by_id_keep(
        t.setup.lent(),
        &mut t.record,
        &mut t.store,
        &mut t.lens,
        &mut t.rows,
        request.number(1),
        &mut t.answer,
    )
}

pub fn delete_by_id(request: Line<'_>, t: &mut Tables) -> u32 {
    delete_calls::silotwist_delete_by_id(
        t.setup.lent(),
        &mut t.record,
        &mut t.store,
        &mut t.lens,
        &mut t.rows,
        request.number(1),
        &mut t.answer,
    )
}

// Limit and log are ample; "k" keeps the packets; "d", and "b" with a buffer of the original's, delete them.
pub fn release(request: Line<'_>, t: &mut Tables) -> u32 {
    let keeps = matches!(request.word(1), b"k");
    tick_call::silotwist_tick(
        t.setup.lent(),
        &mut t.record,
        &mut t.store,
        &mut t.lens,
        &mut t.rows,
        &mut t.bytes,
        u64::MAX,
        !keeps,
        &mut t.answer,
    )
}
