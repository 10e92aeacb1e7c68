// What a line changes of what the calls are given: the setup, how much is lent, the record; and damage.
use crate::Small;
use crate::kind::Edit;
use lent::{Bench, Part};
use record::Record;
use schedule::Setup;
use text::line::Line;

// Nothing is set up, and nothing lent.
pub fn bench() -> Small {
    let none = Line(b"");
    Bench {
        setup: setup(none),
        rec: record(none),
        part: part(none),
        store: [238; 120],
        lens: [60000; 7],
        rows: [77; 20],
    }
}

pub fn run(bench: &mut Small, edit: Edit, line: Line) {
    match edit {
        Edit::Setup => bench.setup = setup(line),
        Edit::Lend => bench.part = part(line),
        Edit::Record => bench.rec = record(line),
        Edit::Length => lent::set(&mut bench.lens, line.index(1), line.short(2)),
        Edit::Word => lent::set(&mut bench.rows, line.index(1), line.number(2)),
        Edit::Vanish => vanish(bench, line.number(1)),
    }
}

// A packet that the store's own deletion takes from under the schedule.
fn vanish(bench: &mut Small, addr: u64) {
    let _ = store_public::delete(bench.setup.store, &mut bench.store, &mut bench.lens, addr);
}

// How many bytes, lengths and words of rows.
fn part(line: Line) -> Part {
    Part {
        room: line.index(1),
        lens: line.index(2),
        rows: line.index(3),
    }
}

// Subpools, size and slots of the first, size and slots of the second, entries, and whether it spills.
fn setup(line: Line) -> Setup {
    Setup {
        store: layout::Setup {
            pools: line.index(1),
            sizes: [line.short(2), line.short(4), 0, 0, 0, 0, 0, 0],
            slots: [line.short(3), line.short(5), 0, 0, 0, 0, 0, 0],
            spill: line.number(7) == 1,
        },
        entries: line.index(6),
    }
}

// The count, the clock, the margin, and whether it is enabled.
fn record(line: Line) -> Record {
    Record {
        count: line.index(1),
        clock: line.time(2),
        margin: line.margin(4),
        enabled: line.number(6) == 1,
    }
}
