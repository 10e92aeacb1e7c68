// What a line gives to the calls: the setup, the record, how much of the tables a tick is lent; and damage.
use crate::kind::Edit;
use crate::{BYTES, LENGTHS, Large, WORDS};
use lent::{Bench, Part};
use record::Record;
use schedule::Setup;
use text::line::Line;

// Nothing is set up, and nothing lent; zeros. A bench that were handed out with other numbers in it would be copied on the way, and the program
// would need twice the stack.
pub fn bench() -> Large {
    let none = Line(b"");
    Bench {
        setup: setup(none),
        rec: record(none),
        part: part(none),
        store: [0; BYTES],
        lens: [0; LENGTHS],
        rows: [0; WORDS],
    }
}

// What lengths and rows hold before anything is set up.
pub fn lay_ground(bench: &mut Large) {
    bench.lens.fill(60000);
    bench.rows.fill(77);
}

// With a setup all that there is is lent.
pub fn run(bench: &mut Large, edit: Edit, line: Line) {
    match edit {
        Edit::Setup => {
            bench.setup = setup(line);
            bench.part = Part {
                room: BYTES,
                lens: LENGTHS,
                rows: WORDS,
            };
        }
        Edit::Lend => bench.part = part(line),
        Edit::Known => bench.rec = record(line),
        Edit::Number => lent::set(&mut bench.lens, line.index(1), line.short(3)),
        Edit::Word => lent::set(&mut bench.rows, line.index(1), line.number(3)),
    }
}

// How many bytes, lengths and words of rows.
fn part(line: Line) -> Part {
    Part {
        room: line.index(1),
        lens: line.index(3),
        rows: line.index(5),
    }
}

// Slots, their size, entries, in one subpool.
fn setup(line: Line) -> Setup {
    Setup {
        store: layout::Setup {
            pools: 1,
            sizes: [line.short(4), 0, 0, 0, 0, 0, 0, 0],
            slots: [line.short(1), 0, 0, 0, 0, 0, 0, 0],
            spill: false,
        },
        entries: line.index(6),
    }
}

// The count, the clock, the margin, and whether it is enabled.
fn record(line: Line) -> Record {
    Record {
        count: line.index(2),
        clock: line.time_of(4, 6),
        margin: line.margin_of(9, 11),
        enabled: line.number(14) == 1,
    }
}
