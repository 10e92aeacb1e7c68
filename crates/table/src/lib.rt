// The schedule's table (document 01, module 5): packed rows in one lent slice, in release-time order, equal times in insertion order.
// Searched by time: how many rows at the front lie before a moment. Each search by time is one of these.
#![tactic(auto)]

ghost use Rattle.std.specs.Prelude.{◌≡◌, ◌*◌, ◌+◌, ◌≤◌};
ghost use Rattle.rows.specs.Entries.{unpack};
ghost use Rattle.rows.specs.Order.{Sound};
ghost use Rattle.table.specs.Before.{below as belowOf};
ghost use Rattle.time.specs.Time.{MomentInRange, giga, instant_of};

use time::Moment;

// How many rows are before the moment.
pub fn below(rows: &[u64], count: usize, m: Moment) -> usize
    requires sound { Sound rows.now count }
    requires moment_in_range { MomentInRange m }
    ensures { (result ≤ count) × (result ≡ belowOf (instant_of m) (unpack count rows.now)) }
{
    below_words(rows, count, m.secs, u64::from(m.nanos))
}

// How many rows are not after the moment.
pub fn up_to(rows: &[u64], count: usize, m: Moment) -> usize
    requires sound { Sound rows.now count }
    requires moment_in_range { MomentInRange m }
    ensures { (result ≤ count) × (result ≡ belowOf (instant_of m + 1) (unpack count rows.now)) }
{
    below_words(rows, count, m.secs, u64::from(m.nanos) + 1)
}

// Nanoseconds may be a whole second: what follows a second's last nanosecond.
fn below_words(rows: &[u64], count: usize, secs: u64, nanos: u64) -> usize
    requires sound { Sound rows.now count }
    requires nanos_le_giga { nanos ≤ giga }
    ensures { (result ≤ count) × (result ≡ belowOf (secs * giga + nanos) (unpack count rows.now)) }
{
    // As (secs, nanos) <= (s, n) the test takes half as many instructions again.
    rows::table(rows, count)
        .iter()
        .position(|&[s, n, _, _]| secs < s || s == secs && nanos <= n)
        .unwrap_or(count)
}
