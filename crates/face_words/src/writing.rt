// The words of the record, written: only those that a call changes.
ghost use Rattle.std.specs.Prelude.{◌≡◌, ◌≤◌, length, set};
ghost use Rattle.lookup.specs.Refusals.{bit};
ghost use Rattle.face_words.specs.Inside.{clock_set, record_set, written_if};

use crate::word_of;
use record::Record;
use time::UnixTime;

// The count.
pub fn count(record: &mut [u64], n: usize)
    requires { 6 ≤ length «record».old }
    ensures { «record».new ≡ set «record».old 0 n }
{
    record[0] = n as u64;
}

// The clock, where the call was carried out.
pub fn clock(record: &mut [u64], number: u32, t: UnixTime)
    requires { 6 ≤ length «record».old }
    ensures { «record».new
        ≡ written_if number (clock_set «record».old t) «record».old }
{
    if number == 0 {
        record[1] = word_of(t.secs);
        record[2] = u64::from(t.nanos);
    }
}

// The mark, where the call was carried out.
pub fn mark(record: &mut [u64], number: u32, on: bool)
    requires { 6 ≤ length «record».old }
    ensures { «record».new ≡ written_if number (set «record».old 5 (bit on)) «record».old }
{
    if number == 0 {
        record[5] = u64::from(on);
    }
}

// All six words, where the call was carried out.
pub fn all(record: &mut [u64], number: u32, r: Record)
    requires { 6 ≤ length «record».old }
    ensures { «record».new ≡ written_if number (record_set «record».old r) «record».old }
{
    if number == 0 {
        let c = r.clock;
        let m = r.margin;
        record[0] = r.count as u64;
        record[1] = word_of(c.secs);
        record[2] = u64::from(c.nanos);
        record[3] = m.secs;
        record[4] = u64::from(m.nanos);
        record[5] = u64::from(r.enabled);
    }
}
