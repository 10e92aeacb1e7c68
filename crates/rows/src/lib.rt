// A row of the schedule's table (document 01, module 5): four words of one lent slice, which say when a command is released, its request
// ID and where its packet lies.
#![tactic(auto)]

ghost use Rattle.std.specs.Prelude.{◌≡◌, ◌<◌, length};
ghost use Rattle.rows.specs.Entries.{entries, row, unpack};
ghost use Rattle.rows.specs.Order.{Held};

pub mod judge;

// The words of a row: seconds counted from -2^42, nanoseconds, request ID, address.
// This layout is known to `tc_info`, `judge`, `table`, `selection::find` and `table_edit` alone.
pub const ROW: usize = 4;

pub type Row = [u64; ROW];

// The first rows, each by itself.
pub fn table(rows: &[u64], count: usize) -> &[Row]
    requires { Held rows.now count }
    ensures entries { entries result.now ≡ unpack count rows.now }
    ensures length { length result.now ≡ count }
{
    let (all, _) = rows.as_chunks::<ROW>();
    &all[..count]
}

// What an entry says of its packet.
#[derive(Clone, Copy)]
pub struct TcInfo {
    pub request_id: u64,
    pub addr: u64,
}

// What row i says of its packet.
pub fn tc_info(rows: &[u64], count: usize, i: usize) -> TcInfo
    requires held { Held rows.now count }
    requires i_lt_count { i < count }
    ensures { (result.request_id ≡ (row rows.now i).id) × (result.addr ≡ (row rows.now i).addr) }
{
    let b = i * ROW;
    TcInfo {
        request_id: rows[b + 2],
        addr: rows[b + 3],
    }
}
