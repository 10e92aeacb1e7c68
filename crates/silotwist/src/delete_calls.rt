// The deletions by window and by request ID.
ghost use Rattle.deletions.specs.Deleting.{delete_window_in};
ghost use Rattle.by_id.specs.ById.{delete_by_id_in, delete_keeping_in};
ghost use Rattle.face_reading.specs.Reading.{window_from, word};
ghost use Rattle.face.specs.ScheduleFace.{ScheduleFaces, count_written, judged_call};

use face_words::telling;

#[unsafe(no_mangle)]
pub extern "C" fn silotwist_delete_window(
    setup: &[u64],
    record: &mut [u64],
    store: &mut [u8],
    lens: &mut [u16],
    rows: &mut [u64],
    has_from: bool,
    from_secs: i64,
    from_nanos: u32,
    has_to: bool,
    to_secs: i64,
    to_nanos: u32,
    answer: &mut [u64],
) -> u32
    ensures { ScheduleFaces setup.now (word «record».old 0)
        (judged_call answer.old setup.now «record».old store.old lens.old rows.old
        (λ su. delete_window_in (window_from
        has_from (record { secs = from_secs; nanos = from_nanos }) has_to (record { secs = to_secs; nanos = to_nanos }))))
        (count_written «record».old)
        «record».old store.old lens.old rows.old answer.old result
        «record».new store.new lens.new rows.new answer.new }
{
    if answer.len() < 8 {
        return 2;
    }
    let su = face_reading::setup(setup);
    if record.len() < 6 {
        return schedule_answers::short(answer, su);
    }
    let mut r = face_reading::record(record);
    let from = face_reading::time(from_secs, from_nanos);
    let to = face_reading::time(to_secs, to_nanos);
    let v = face_reading::window(has_from, from, has_to, to);
    let a = deletions_public::delete_by_time_filter(su, &mut r, store, lens, rows, v);
    let w = schedule_answers::cleared(a);
    telling::with_count(record, r.count, answer, w)
}

#[unsafe(no_mangle)]
pub extern "C" fn silotwist_delete_by_id_keep(
    setup: &[u64],
    record: &mut [u64],
    store: &mut [u8],
    lens: &mut [u16],
    rows: &mut [u64],
    request_id: u64,
    answer: &mut [u64],
) -> u32
    ensures { ScheduleFaces setup.now (word «record».old 0)
        (judged_call answer.old setup.now «record».old store.old lens.old rows.old
        (λ su. delete_keeping_in request_id))
        (count_written «record».old)
        «record».old store.old lens.old rows.old answer.old result
        «record».new store.new lens.new rows.new answer.new }
{
    if answer.len() < 8 {
        return 2;
    }
    let su = face_reading::setup(setup);
    if record.len() < 6 {
        return schedule_answers::short(answer, su);
    }
    let mut r = face_reading::record(record);
    let a = by_id_public::delete_by_request_id(su, &mut r, store, lens, rows, request_id);
    let w = schedule_answers::taken(a);
    telling::with_count(record, r.count, answer, w)
}

#[unsafe(no_mangle)]
pub extern "C" fn silotwist_delete_by_id(
    setup: &[u64],
    record: &mut [u64],
    store: &mut [u8],
    lens: &mut [u16],
    rows: &mut [u64],
    request_id: u64,
    answer: &mut [u64],
) -> u32
    ensures { ScheduleFaces setup.now (word «record».old 0)
        (judged_call answer.old setup.now «record».old store.old lens.old rows.old
        (λ su. delete_by_id_in request_id))
        (count_written «record».old)
        «record».old store.old lens.old rows.old answer.old result
        «record».new store.new lens.new rows.new answer.new }
{
    if answer.len() < 8 {
        return 2;
    }
    let su = face_reading::setup(setup);
    if record.len() < 6 {
        return schedule_answers::short(answer, su);
    }
    let mut r = face_reading::record(record);
    let a = by_id_public::delete_by_request_id_and_from_pool(
        su, &mut r, store, lens, rows, request_id,
    );
    let w = schedule_answers::freed(a);
    telling::with_count(record, r.count, answer, w)
}
