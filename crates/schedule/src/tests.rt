// The tests of refusals 1 to 3 over setup, record, store and rows together.
ghost use Rattle.std.specs.Prelude.{◌≡◌, true, length};
ghost use Rattle.schedule.specs.Inside.{Long};
ghost use Rattle.schedule.specs.Judge.{buffers_ok, setup_ok, state_ok};

use crate::Setup;
use record::Record;
use rows::ROW;

// 1-4,096 entries.
const MAX_ENTRIES: usize = 4096;

pub fn setup_ok(setup: Setup) -> bool
    ensures { result ≡ setup_ok setup }
{
    if !layout::setup_ok(setup.store) {
        return false;
    }
    if setup.entries < 1 {
        return false;
    }
    setup.entries <= MAX_ENTRIES
}

pub fn buffers_ok(setup: Setup, room: usize, lens: usize, rows: usize) -> bool
    requires { setup_ok setup ≡ true }
    ensures { result ≡ buffers_ok setup room lens rows }
{
    if !layout::buffers_ok(setup.store, room, lens) {
        return false;
    }
    setup.entries * ROW <= rows
}

pub fn state_ok(setup: Setup, rec: Record, lens: &[u16], rows: &[u64]) -> bool
    requires { Long setup (length lens.now) (length rows.now) }
    ensures { result ≡ state_ok setup rec lens.now rows.now }
{
    if setup.entries < rec.count {
        return false;
    }
    if !rec.times_in_range() {
        return false;
    }
    if !rows::judge::in_order(rows, rec.count) {
        return false;
    }
    layout::lens_ok(setup.store, lens)
}
