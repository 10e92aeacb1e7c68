// Finding the row that a deletion by request ID takes: in the earliest release time that has a match, the last match.
ghost use Rattle.std.specs.Prelude.{◌≡◌, ◌<◌, ℕ, MatchOption, length};
ghost use Rattle.rows.specs.Entries.{unpack};
ghost use Rattle.selection.specs.Match.{victim as victimOf};
ghost use Rattle.rows.specs.Order.{Sound};
ghost use Rattle.selection.specs.Inside.{Bears};

use rows::Row;

// The row to take; none where no row has the ID.
pub fn victim(rows: &[u64], count: usize, id: u64) -> Option<usize>
    requires { Sound rows.now count }
    ensures { MatchOption result
        (victimOf id (unpack count rows.now) ≡ count)
        (λ i. (i < count) × (i ≡ victimOf id (unpack count rows.now))) }
{
    let rows = rows::table(rows, count);
    let earliest = rows.iter().position(|&[_, _, i, _]| i == id)?;
    let [secs, nanos, _, _] = rows[earliest];
    last_at(rows, secs, nanos, id)
}

// The last row with a time and a request ID.
fn last_at(rows: &[Row], secs: u64, nanos: u64, id: u64) -> Option<usize>
    ensures { MatchOption result
        ((k : ℕ) → k < length rows.now → Bears rows.now k secs nanos id → ⊥)
        (λ i. (i < length rows.now) × Bears rows.now i secs nanos id
        × ((k : ℕ) → i < k → k < length rows.now → Bears rows.now k secs nanos id → ⊥)) }
{
    rows.iter()
        .rposition(|&[s, n, i, _]| i == id && s == secs && n == nanos)
}
