// A shift: the scheduler's record and tables, and the totals so far.
use record::Record;
use schedule::Setup;
use shift_totals::Totals;
use time::{Margin, UnixTime};

#[derive(Clone, Copy)]
pub struct Shift {
    pub rec: Record,
    pub totals: Totals,
    pub store: [u8; 160],
    pub lens: [u16; 8],
    pub rows: [u64; 32],
}

// Six slots of 16 bytes, two of 32, and eight entries.
pub fn setup() -> Setup {
    Setup {
        store: layout::Setup {
            pools: 2,
            sizes: [16, 32, 0, 0, 0, 0, 0, 0],
            slots: [6, 2, 0, 0, 0, 0, 0, 0],
            spill: false,
        },
        entries: 8,
    }
}

// Nothing is scheduled, and nothing counted.
pub fn begun() -> Shift {
    Shift {
        rec: Record {
            count: 0,
            clock: UnixTime { secs: 0, nanos: 0 },
            margin: Margin { secs: 0, nanos: 0 },
            enabled: false,
        },
        totals: Totals::default(),
        store: [0; 160],
        lens: [65535; 8],
        rows: [0; 32],
    }
}
