// The schedule's table, changed: a row inserted at its place, and a range of rows removed.
#![tactic(auto)]

ghost use Rattle.std.specs.Prelude.{◌≡◌, ◌+◌, ◌≤◌};
ghost use Rattle.table_edit.specs.Edits.{Spare, after_insert, after_remove, insert_at};
ghost use Rattle.rows.specs.Entries.{entry_of, relaid, unpack};
ghost use Rattle.rows.specs.Order.{Held, Sound};
ghost use Rattle.time.specs.Time.{MomentInRange};

use rows::ROW;
use table::up_to;
use time::Moment;

// Puts a row after every row that is not later.
pub fn insert(rows: &mut [u64], count: usize, release: Moment, id: u64, addr: u64)
    requires sound { Sound rows.old count }
    requires spare { Spare rows.old count }
    requires moment_in_range { MomentInRange release }
    ensures { rows.new ≡ after_insert rows.old count (entry_of release id addr) }
{
    let at = up_to(rows, count, release);
    insert_at(rows, count, at, release, id, addr);
}

// Puts a row at index `at`, and moves those from there on up by one.
fn insert_at(rows: &mut [u64], count: usize, at: usize, release: Moment, id: u64, addr: u64)
    requires at_le_count { at ≤ count }
    requires spare { Spare rows.old count }
    ensures { rows.new
        ≡ relaid rows.old count (insert_at at (entry_of release id addr) (unpack count rows.old)) }
{
    let b = at * ROW;
    rows.copy_within(b..count * ROW, b + ROW);
    // One store a word: an array of the four, copied, would go through the stack.
    rows[b] = release.secs;
    rows[b + 1] = u64::from(release.nanos);
    rows[b + 2] = id;
    rows[b + 3] = addr;
}

// Takes n rows from row `from` on out, closes the gap and zeros the rows that are vacated at the end.
pub fn remove(rows: &mut [u64], count: usize, from: usize, n: usize)
    requires held { Held rows.old count }
    requires n_bound { from + n ≤ count }
    ensures { rows.new ≡ after_remove rows.old count from n }
{
    let end = count * ROW;
    rows.copy_within((from + n) * ROW..end, from * ROW);
    rows[(count - n) * ROW..end].fill(0);
}
