// The scheduler's answers and refusals in words: document 01's number and values.
#![tactic(auto)]

ghost use Rattle.std.specs.Prelude.{Err, Ok, Some, ◌≡◌, [], ◌++◌, ◌≤◌, drop, length};
ghost use Rattle.deletions.specs.Answers.{cleared_paper};
ghost use Rattle.sweep.specs.Answers.{last_paper};
ghost use Rattle.by_id.specs.Answers.{freed_paper, taken_paper};
ghost use Rattle.windows.specs.Answers.{retrieved_paper};
ghost use Rattle.face_words.specs.Inside.{eight, words_of};
ghost use Rattle.storing.specs.Answers.{inserted_paper};
ghost use Rattle.record.specs.Refusals.{done_paper, margin_words, paper, time_words};
ghost use Rattle.rules.specs.Papers.{no};
ghost use Rattle.counting.specs.Answers.{counted_paper};
ghost use Rattle.face_reading.specs.Inside.{short_paper};
ghost use Rattle.schedule_answers.specs.Inside.{carrying};
ghost use Rattle.tick.specs.Promise.{tick_paper};

use face_words::{Words, none, one, telling, two, word_of};
use record::ScheduleRefusal;
use rows::TcInfo;
use schedule::Setup;
use selection::Part;
use slots::StoreRefusal;
use store_answers::store_refusal;
use sweep::Tally;
use tick::Handed;
use time::{Margin, UnixTime};

// A record with too few words: 1 where the setup is bad, and else 2.
#[tactic(auto, unfolding(face_reading::specs::Inside::short_paper))]
fn short_record(setup: Setup) -> Words
    ensures { result ≡ words_of (short_paper setup) }
{
    none(if schedule::setup_ok(setup) { 2 } else { 1 })
}

// The same, told.
pub fn short(answer: &mut [u64], setup: Setup) -> u32
    requires { 8 ≤ length answer.old }
    ensures { (result ≡ (words_of (short_paper setup)).number)
        × (answer.new ≡ eight (words_of (short_paper setup)).values ++ drop 8 answer.old) }
{
    telling::put(answer, short_record(setup))
}

// Refusal 13: clock, margin, release.
fn late(clock: UnixTime, margin: Margin, release: UnixTime) -> Words
    ensures { result ≡ words_of (no 13 (time_words clock (margin_words margin (time_words release [])))) }
{
    Words {
        number: 13,
        values: [
            word_of(clock.secs),
            u64::from(clock.nanos),
            margin.secs,
            u64::from(margin.nanos),
            word_of(release.secs),
            u64::from(release.nanos),
            0,
            0,
        ],
    }
}

#[tactic(auto, unfolding(record::specs::Refusals::paper))]
pub fn refusal(e: ScheduleRefusal) -> Words
    ensures { result ≡ words_of (paper e) }
{
    match e {
        ScheduleRefusal::Store(s) => store_refusal(s),
        ScheduleRefusal::BadTime => none(4),
        ScheduleRefusal::WrongService(n) => one(5, u64::from(n)),
        ScheduleRefusal::WrongSubservice(n) => one(6, u64::from(n)),
        ScheduleRefusal::TcDataEmpty => none(7),
        ScheduleRefusal::BadTimestamp => none(8),
        ScheduleRefusal::TcUnreadable => none(9),
        ScheduleRefusal::NestedScheduledTc => none(10),
        ScheduleRefusal::ReleaseTimeInTimeMargin {
            clock,
            margin,
            release,
        } => late(clock, margin, release),
        ScheduleRefusal::ScheduleFull => none(14),
        ScheduleRefusal::ReversedWindow => none(15),
        ScheduleRefusal::LogTooSmall(t) => one(20, t as u64),
    }
}

#[tactic(auto, unfolding(record::specs::Refusals::done_paper))]
pub fn done(a: Result<(), ScheduleRefusal>) -> Words
    ensures { result ≡ words_of (done_paper a) }
{
    match a {
        Ok(()) => none(0),
        Err(e) => refusal(e),
    }
}

#[tactic(auto, unfolding(counting::specs::Answers::counted_paper))]
pub fn counted(a: Result<usize, ScheduleRefusal>) -> Words
    ensures { result ≡ words_of (counted_paper a) }
{
    match a {
        Ok(n) => one(0, n as u64),
        Err(e) => refusal(e),
    }
}

#[tactic(auto, unfolding(storing::specs::Answers::inserted_paper))]
pub fn inserted(a: Result<TcInfo, ScheduleRefusal>) -> Words
    ensures { result ≡ words_of (inserted_paper a) }
{
    match a {
        Ok(i) => two(0, i.addr, i.request_id),
        Err(e) => refusal(e),
    }
}

#[tactic(auto, unfolding(windows::specs::Answers::retrieved_paper))]
pub fn retrieved(a: Result<Part, ScheduleRefusal>) -> Words
    ensures { result ≡ words_of (retrieved_paper a) }
{
    match a {
        Ok(p) => two(0, p.first as u64, p.number as u64),
        Err(e) => refusal(e),
    }
}

#[tactic(auto, unfolding(by_id::specs::Answers::taken_paper))]
pub fn taken(a: Result<Option<u64>, ScheduleRefusal>) -> Words
    ensures { result ≡ words_of (taken_paper a) }
{
    match a {
        Ok(None) => one(0, 0),
        Ok(Some(address)) => two(0, 1, address),
        Err(e) => refusal(e),
    }
}

// An answer that carries another behind two words: that one's number, and its values.
fn behind(a: u64, b: u64, w: Words) -> Words
    ensures { result ≡ carrying a b w }
{
    let v = w.values;
    Words {
        number: 0,
        values: [a, b, u64::from(w.number), v[0], v[1], v[2], v[3], v[4]],
    }
}

#[tactic(auto, unfolding(sweep::specs::Answers::last_paper))]
fn last(a: Option<StoreRefusal>) -> Words
    ensures { result ≡ words_of (last_paper a) }
{
    match a {
        None => none(0),
        Some(e) => store_refusal(e),
    }
}

#[tactic(auto, unfolding(deletions::specs::Answers::cleared_paper))]
pub fn cleared(a: Result<Tally, ScheduleRefusal>) -> Words
    ensures { result ≡ words_of (cleared_paper a) }
{
    match a {
        Ok(t) => behind(t.deleted as u64, t.missing as u64, last(t.last)),
        Err(e) => refusal(e),
    }
}

// An entry deleted, whose packet the store keeps: why it refused.
#[tactic(auto, unfolding(by_id::specs::Answers::freed_paper))]
fn kept(e: StoreRefusal) -> Words
    ensures { result ≡ words_of (freed_paper (Ok (Some (Err e)))) }
{
    behind(1, 0, store_refusal(e))
}

#[tactic(auto, unfolding(by_id::specs::Answers::freed_paper))]
pub fn freed(a: Result<Option<Result<(), StoreRefusal>>, ScheduleRefusal>) -> Words
    ensures { result ≡ words_of (freed_paper a) }
{
    match a {
        Ok(None) => one(0, 0),
        Ok(Some(Ok(()))) => two(0, 1, 1),
        Ok(Some(Err(e))) => kept(e),
        Err(e) => refusal(e),
    }
}

#[tactic(auto, unfolding(tick::specs::Promise::tick_paper))]
pub fn ticked(a: Result<Handed, ScheduleRefusal>) -> Words
    ensures { result ≡ words_of (tick_paper a) }
{
    match a {
        Ok(h) => two(0, h.m as u64, h.remain as u64),
        Err(e) => refusal(e),
    }
}
