// Fresh start, count, window and reset.
ghost use Rattle.std.specs.Prelude.{length};
ghost use Rattle.deletions.specs.Deleting.{reset_in};
ghost use Rattle.windows.specs.Windowing.{retrieve_in};
ghost use Rattle.face_reading.specs.Reading.{window_from, word};
ghost use Rattle.counting.specs.Counting.{count_in};
ghost use Rattle.starting.specs.Starting.{start_in};
ghost use Rattle.face.specs.Face.{Answers};
ghost use Rattle.face.specs.ScheduleFace.{ScheduleFaces, all_written, judged_call, reset_written, schedule_call};

use face_words::telling;
use time::Margin;

#[unsafe(no_mangle)]
pub extern "C" fn silotwist_count(
    setup: &[u64],
    record: &[u64],
    store: &[u8],
    lens: &[u16],
    rows: &[u64],
    answer: &mut [u64],
) -> u32
    ensures { Answers
        (judged_call answer.old setup.now «record».now store.now lens.now rows.now
        (λ su. count_in))
        answer.old result answer.new }
{
    if answer.len() < 8 {
        return 2;
    }
    let su = face_reading::setup(setup);
    if record.len() < 6 {
        return schedule_answers::short(answer, su);
    }
    let r = face_reading::record(record);
    let a = counting::count(su, r, store, lens, rows);
    let w = schedule_answers::counted(a);
    telling::put(answer, w)
}

#[unsafe(no_mangle)]
pub extern "C" fn silotwist_window(
    setup: &[u64],
    record: &[u64],
    store: &[u8],
    lens: &[u16],
    rows: &[u64],
    has_from: bool,
    from_secs: i64,
    from_nanos: u32,
    has_to: bool,
    to_secs: i64,
    to_nanos: u32,
    answer: &mut [u64],
) -> u32
    ensures { Answers
        (judged_call answer.old setup.now «record».now store.now lens.now rows.now
        (λ su. retrieve_in (window_from
        has_from (record { secs = from_secs; nanos = from_nanos }) has_to (record { secs = to_secs; nanos = to_nanos }))))
        answer.old result answer.new }
{
    if answer.len() < 8 {
        return 2;
    }
    let su = face_reading::setup(setup);
    if record.len() < 6 {
        return schedule_answers::short(answer, su);
    }
    let r = face_reading::record(record);
    let from = face_reading::time(from_secs, from_nanos);
    let to = face_reading::time(to_secs, to_nanos);
    let v = face_reading::window(has_from, from, has_to, to);
    let a = deletions_public::retrieve_by_time_filter(su, r, store, lens, rows, v);
    let w = schedule_answers::retrieved(a);
    telling::put(answer, w)
}

#[unsafe(no_mangle)]
pub extern "C" fn silotwist_reset(
    setup: &[u64],
    record: &mut [u64],
    store: &mut [u8],
    lens: &mut [u16],
    rows: &mut [u64],
    answer: &mut [u64],
) -> u32
    ensures { ScheduleFaces setup.now (word «record».old 0)
        (judged_call answer.old setup.now «record».old store.old lens.old rows.old
        (λ su. reset_in))
        (reset_written «record».old)
        «record».old store.old lens.old rows.old answer.old result
        «record».new store.new lens.new rows.new answer.new }
{
    if answer.len() < 8 {
        return 2;
    }
    let su = face_reading::setup(setup);
    if record.len() < 6 {
        return schedule_answers::short(answer, su);
    }
    let mut r = face_reading::record(record);
    let a = deletions_public::reset(su, &mut r, store, lens, rows);
    let w = schedule_answers::cleared(a);
    telling::with_reset(record, r.count, answer, w)
}

#[unsafe(no_mangle)]
pub extern "C" fn silotwist_fresh(
    setup: &[u64],
    record: &mut [u64],
    store: &mut [u8],
    lens: &mut [u16],
    rows: &mut [u64],
    clock_secs: i64,
    clock_nanos: u32,
    margin_secs: u64,
    margin_nanos: u32,
    answer: &mut [u64],
) -> u32
    ensures { ScheduleFaces setup.now (word setup.now 2)
        (schedule_call answer.old setup.now «record».old
        (λ su r. start_in su (length store.old) (length lens.old) (length rows.old)
        (record { secs = clock_secs; nanos = clock_nanos }) (record { secs = margin_secs; nanos = margin_nanos })))
        (all_written «record».old)
        «record».old store.old lens.old rows.old answer.old result
        «record».new store.new lens.new rows.new answer.new }
{
    if answer.len() < 8 {
        return 2;
    }
    let su = face_reading::setup(setup);
    if record.len() < 6 {
        return schedule_answers::short(answer, su);
    }
    let mut r = face_reading::record(record);
    let t = face_reading::time(clock_secs, clock_nanos);
    let m = Margin {
        secs: margin_secs,
        nanos: margin_nanos,
    };
    let a = starting::fresh_start(su, &mut r, store, lens, rows, t, m);
    let w = schedule_answers::done(a);
    telling::with_all(record, r, answer, w)
}
