// How many entries of a tick the log holds, found before anything is written. In delete mode a packet handed out is gone for a later entry with
// the same address: the store marks it (crate `marks`), and takes all marks off again.
#![tactic(auto)]

ghost use Rattle.std.specs.Prelude.{◌≡◌, ◌≤◌};
ghost use Rattle.release_log.specs.Log.{max_log_bytes};
ghost use Rattle.layout.specs.Judge.{Sound as StoreSound};
ghost use Rattle.marks.specs.Promise.{Marking, Places};
ghost use Rattle.slots.specs.View.{view};
ghost use Rattle.rows.specs.Entries.{unpack};
ghost use Rattle.rows.specs.Order.{Held};
ghost use Rattle.measure.specs.Inside.{Counted, Left};
ghost use Rattle.measure.specs.Fitting.{fitting};
ghost use Rattle.turn.specs.Turns.{leave};

// Marks the packet of a place as handed out, in delete mode.
fn mark(setup: layout::Setup, lens: &mut [u16], all: usize, place: usize, delete: bool)
    requires { Places setup all × Marking setup lens.old }
    ensures { Left delete setup lens.old place lens.new }
{
    if delete {
        marks::mark(setup, lens, all, place);
    }
}

// How many of the first n rows fit into cap bytes. In delete mode the packets of those that do are marked.
fn mark_fitting(
    setup: layout::Setup,
    store: &[u8],
    lens: &mut [u16],
    rows: &[u64],
    n: usize,
    cap: usize,
    delete: bool,
) -> usize
    requires store_sound { StoreSound setup store.now lens.old }
    requires held { Held rows.now n }
    requires le_cap { (8 ≤ cap) × (cap ≤ max_log_bytes) }
    ensures { (result ≡ fitting (leave delete) 8 cap (unpack n rows.now) (view setup store.now lens.old))
        × Counted delete setup store.now lens.old lens.new }
{
    let all = marks::places(setup);
    let mut used: usize = 8;
    for i in 0..n {
        let info = rows::tc_info(rows, n, i);
        let place = marks::place_of(setup, info.addr);
        let len = marks::bytes_left(setup, lens, all, place);
        let next = used + 21 + len;
        if cap < next {
            return i;
        }
        mark(setup, lens, all, place, delete);
        used = next;
    }
    n
}

// How many of the first n rows fit into cap bytes. The length table is as it was.
pub fn measure(
    setup: layout::Setup,
    store: &[u8],
    lens: &mut [u16],
    rows: &[u64],
    n: usize,
    cap: usize,
    delete: bool,
) -> usize
    requires store_sound { StoreSound setup store.now lens.old }
    requires held { Held rows.now n }
    requires le_cap { (8 ≤ cap) × (cap ≤ max_log_bytes) }
    ensures { (result ≡ fitting (leave delete) 8 cap (unpack n rows.now) (view setup store.now lens.old))
        × (lens.new ≡ lens.old) }
{
    let m = mark_fitting(setup, store, lens, rows, n, cap, delete);
    if delete {
        marks::unmark(setup, lens);
    }
    m
}
