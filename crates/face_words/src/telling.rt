// An answer told: its number is returned, its words are put into the lent answer, and the words of the record that the call changes are written.
ghost use Rattle.std.specs.Prelude.{◌≡◌, false, ◌++◌, ◌≤◌, drop, length, set};
ghost use Rattle.lookup.specs.Refusals.{bit};
ghost use Rattle.face_words.specs.Inside.{Tells, clock_set, eight, record_set, written_if};

use crate::{Words, writing};
use record::Record;
use time::UnixTime;

// The first 8 words of the answer; those behind them stay.
pub fn put(answer: &mut [u64], words: Words) -> u32
    requires { 8 ≤ length answer.old }
    ensures { (result ≡ words.number) × (answer.new ≡ eight words.values ++ drop 8 answer.old) }
{
    // By a loop: as a slice copied over a slice the words go through the stack twice.
    for i in 0..8 {
        answer[i] = words.values[i];
    }
    words.number
}

// The count too: a refusal leaves it, and so it is written always.
pub fn with_count(record: &mut [u64], n: usize, answer: &mut [u64], words: Words) -> u32
    requires { (6 ≤ length «record».old) × (8 ≤ length answer.old) }
    ensures { Tells words (set «record».old 0 n) answer.old result «record».new answer.new }
{
    writing::count(record, n);
    put(answer, words)
}

// The clock too, where the call was carried out.
pub fn with_clock(record: &mut [u64], t: UnixTime, answer: &mut [u64], words: Words) -> u32
    requires { (6 ≤ length «record».old) × (8 ≤ length answer.old) }
    ensures { Tells words (written_if words.number (clock_set «record».old t) «record».old)
        answer.old result «record».new answer.new }
{
    writing::clock(record, words.number, t);
    put(answer, words)
}

// The mark too, where the call was carried out.
pub fn with_mark(record: &mut [u64], on: bool, answer: &mut [u64], words: Words) -> u32
    requires { (6 ≤ length «record».old) × (8 ≤ length answer.old) }
    ensures { Tells words (written_if words.number (set «record».old 5 (bit on)) «record».old)
        answer.old result «record».new answer.new }
{
    writing::mark(record, words.number, on);
    put(answer, words)
}

// A reset: the count, and the mark off where it was carried out.
pub fn with_reset(record: &mut [u64], n: usize, answer: &mut [u64], words: Words) -> u32
    requires { (6 ≤ length «record».old) × (8 ≤ length answer.old) }
    ensures { Tells words
        (written_if words.number (set (set «record».old 0 n) 5 (bit false)) (set «record».old 0 n))
        answer.old result «record».new answer.new }
{
    writing::count(record, n);
    writing::mark(record, words.number, false);
    put(answer, words)
}

// All six words too, where the call was carried out.
pub fn with_all(record: &mut [u64], next: Record, answer: &mut [u64], words: Words) -> u32
    requires { (6 ≤ length «record».old) × (8 ≤ length answer.old) }
    ensures { Tells words (written_if words.number (record_set «record».old next) «record».old)
        answer.old result «record».new answer.new }
{
    writing::all(record, words.number, next);
    put(answer, words)
}
