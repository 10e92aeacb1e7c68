// The words that the C face reads: setup, record, a time and a window.
#![tactic(auto)]

ghost use Rattle.std.specs.Prelude.{◌≡◌, false, true, ◌<◌, ◌≤◌};
ghost use Rattle.layout.specs.Judge.{setup_ok as store_setup_ok};
ghost use Rattle.face_reading.specs.Inside.{ReadsSetup, ReadsStore, Stands, clipped, narrow};
ghost use Rattle.face_reading.specs.Reading.{column as columnFrom, record_from, signed as signedWord, switched, window_from, word as word_at};

use record::Record;
use schedule::Setup;
use time::{Margin, UnixTime};
use windows::TimeWindow;

// The least number that no field of the store's setup holds.
const TOO_WIDE: u64 = 65536;

// Word i; 0 behind the last.
pub fn word(words: &[u64], i: usize) -> u64
    ensures { result ≡ word_at words.now i }
{
    words.get(i).copied().unwrap_or(0)
}

// Whether the words of all subpools fit their fields.
fn is_narrow(words: &[u64]) -> bool
    ensures { result ≡ narrow words.now }
{
    for i in 0..16 {
        if word(words, 3 + i) >= TOO_WIDE {
            return false;
        }
    }
    true
}

fn narrowed(w: u64) -> u16
    requires { w < 65536 }
    ensures { result ≡ w }
{
    w as u16
}

fn narrow_word(words: &[u64], i: usize) -> u16
    requires { word_at words.now i < 65536 }
    ensures { result ≡ word_at words.now i }
{
    narrowed(word(words, i))
}

// Every second word from a place on, one for each subpool: from word 3 on its slots, from word 4 on its slot size.
fn column(words: &[u64], first: usize) -> [u16; 8]
    requires words_value { narrow words.now ≡ true }
    requires le_first { (3 ≤ first) × (first ≤ 4) }
    ensures { result ≡ columnFrom first words.now }
{
    [
        narrow_word(words, first),
        narrow_word(words, first + 2),
        narrow_word(words, first + 4),
        narrow_word(words, first + 6),
        narrow_word(words, first + 8),
        narrow_word(words, first + 10),
        narrow_word(words, first + 12),
        narrow_word(words, first + 14),
    ]
}

// A switch: 0 is off, all else on.
pub fn is_on(w: u64) -> bool
    ensures { result ≡ switched w }
{
    w != 0
}

// A setup that refusal 1 is due for.
fn bad_setup() -> layout::Setup
    ensures { store_setup_ok result ≡ false }
{
    layout::Setup {
        pools: 0,
        sizes: [0; 8],
        slots: [0; 8],
        spill: false,
    }
}

// The store's setup. A word that does not fit its field is no size of document 01: it is never cut.
pub fn store_setup(words: &[u64]) -> layout::Setup
    ensures { ReadsStore words.now result }
{
    let pools = word(words, 0);
    if pools > 8 {
        return bad_setup();
    }
    let n = pools as usize;
    if words.len() != 3 + 2 * n {
        return bad_setup();
    }
    if !is_narrow(words) {
        return bad_setup();
    }
    layout::Setup {
        pools: n,
        sizes: column(words, 4),
        slots: column(words, 3),
        spill: is_on(word(words, 1)),
    }
}

// The whole setup.
pub fn setup(words: &[u64]) -> Setup
    ensures { ReadsSetup words.now result }
{
    Setup {
        store: store_setup(words),
        entries: word(words, 2) as usize,
    }
}

// Seconds from their two's complement.
pub fn signed(w: u64) -> i64
    ensures { result ≡ signedWord w }
{
    w.cast_signed()
}

// Nanoseconds: a word that does not fit is out of range, and so is what is taken for it.
fn nanos(w: u64) -> u32
    ensures { result ≡ clipped w }
{
    u32::try_from(w).unwrap_or(u32::MAX)
}

// The record.
pub fn record(words: &[u64]) -> Record
    ensures { Stands (record_from words.now) result }
{
    Record {
        count: word(words, 0) as usize,
        clock: UnixTime {
            secs: signed(word(words, 1)),
            nanos: nanos(word(words, 2)),
        },
        margin: Margin {
            secs: word(words, 3),
            nanos: nanos(word(words, 4)),
        },
        enabled: is_on(word(words, 5)),
    }
}

// A time as C gives it.
pub fn time(secs: i64, nanos: u32) -> UnixTime
    ensures { result ≡ record { secs = secs; nanos = nanos } }
{
    UnixTime { secs, nanos }
}

// A window: an end that it has not is not looked at.
pub fn window(has_from: bool, from: UnixTime, has_to: bool, to: UnixTime) -> TimeWindow
    ensures { result ≡ window_from has_from from has_to to }
{
    match (has_from, has_to) {
        (true, true) => TimeWindow::FromTo(from, to),
        (true, false) => TimeWindow::From(from),
        (false, true) => TimeWindow::To(to),
        (false, false) => TimeWindow::All,
    }
}
