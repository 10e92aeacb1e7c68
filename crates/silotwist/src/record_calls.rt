// The calls that see the record alone.
ghost use Rattle.std.specs.Prelude.{false, true};
ghost use Rattle.record.specs.Record.{Changes, clock_in, mark_in};
ghost use Rattle.record.specs.Refusals.{done_paper};
ghost use Rattle.face.specs.RecordFace.{RecordFaces, clock_written, mark_written, record_call};

use face_words::telling;
use record::{Record, ScheduleRefusal};
use time::UnixTime;

#[unsafe(no_mangle)]
pub extern "C" fn silotwist_set_clock(
    record: &mut [u64],
    secs: i64,
    nanos: u32,
    answer: &mut [u64],
) -> u32
    ensures { RecordFaces
        (record_call answer.old «record».old (clock_in (record { secs = secs; nanos = nanos })))
        (clock_written «record».old)
        «record».old answer.old result «record».new answer.new }
{
    if answer.len() < 8 {
        return 2;
    }
    if record.len() < 6 {
        return telling::put(answer, face_words::none(2));
    }
    let t = UnixTime { secs, nanos };
    let mut r = face_reading::record(record);
    let a = record::set_clock(&mut r, t);
    let w = schedule_answers::done(a);
    telling::with_clock(record, t, answer, w)
}

fn set_mark(r: &mut Record, on: bool) -> Result<(), ScheduleRefusal>
    ensures { Changes (mark_in on r.old) r.old (done_paper result) r.new }
{
    if on {
        record::enable(r)
    } else {
        record::disable(r)
    }
}

fn mark(record: &mut [u64], on: bool, answer: &mut [u64]) -> u32
    ensures { RecordFaces
        (record_call answer.old «record».old (mark_in on))
        (mark_written «record».old)
        «record».old answer.old result «record».new answer.new }
{
    if answer.len() < 8 {
        return 2;
    }
    if record.len() < 6 {
        return telling::put(answer, face_words::none(2));
    }
    let mut r = face_reading::record(record);
    let a = set_mark(&mut r, on);
    let w = schedule_answers::done(a);
    telling::with_mark(record, on, answer, w)
}

#[unsafe(no_mangle)]
pub extern "C" fn silotwist_enable(record: &mut [u64], answer: &mut [u64]) -> u32
    ensures { RecordFaces
        (record_call answer.old «record».old (mark_in true))
        (mark_written «record».old)
        «record».old answer.old result «record».new answer.new }
{
    mark(record, true, answer)
}

#[unsafe(no_mangle)]
pub extern "C" fn silotwist_disable(record: &mut [u64], answer: &mut [u64]) -> u32
    ensures { RecordFaces
        (record_call answer.old «record».old (mark_in false))
        (mark_written «record».old)
        «record».old answer.old result «record».new answer.new }
{
    mark(record, false, answer)
}
