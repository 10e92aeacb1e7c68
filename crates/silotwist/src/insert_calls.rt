// The insertions.
ghost use Rattle.face_reading.specs.Reading.{word};
ghost use Rattle.insertions.specs.Inserting.{insert_unwrapped_in};
ghost use Rattle.gate.specs.Entering.{insert_stored_in};
ghost use Rattle.wrapped.specs.Wrapped.{insert_wrapped_in};
ghost use Rattle.face.specs.ScheduleFace.{ScheduleFaces, count_written, judged_call};

use face_words::telling;

#[unsafe(no_mangle)]
pub extern "C" fn silotwist_insert_wrapped(
    setup: &[u64],
    record: &mut [u64],
    store: &mut [u8],
    lens: &mut [u16],
    rows: &mut [u64],
    packet: &[u8],
    answer: &mut [u64],
) -> u32
    ensures { ScheduleFaces setup.now (word «record».old 0)
        (judged_call answer.old setup.now «record».old store.old lens.old rows.old
        (λ su. insert_wrapped_in su packet.now))
        (count_written «record».old)
        «record».old store.old lens.old rows.old answer.old result
        «record».new store.new lens.new rows.new answer.new }
{
    if answer.len() < 8 {
        return 2;
    }
    let su = face_reading::setup(setup);
    if record.len() < 6 {
        return schedule_answers::short(answer, su);
    }
    let mut r = face_reading::record(record);
    let a = insertions_public::insert_wrapped_tc(su, &mut r, store, lens, rows, packet);
    let w = schedule_answers::inserted(a);
    telling::with_count(record, r.count, answer, w)
}

#[unsafe(no_mangle)]
pub extern "C" fn silotwist_insert_unwrapped(
    setup: &[u64],
    record: &mut [u64],
    store: &mut [u8],
    lens: &mut [u16],
    rows: &mut [u64],
    secs: i64,
    nanos: u32,
    packet: &[u8],
    answer: &mut [u64],
) -> u32
    ensures { ScheduleFaces setup.now (word «record».old 0)
        (judged_call answer.old setup.now «record».old store.old lens.old rows.old
        (λ su. insert_unwrapped_in su (record { secs = secs; nanos = nanos }) packet.now))
        (count_written «record».old)
        «record».old store.old lens.old rows.old answer.old result
        «record».new store.new lens.new rows.new answer.new }
{
    if answer.len() < 8 {
        return 2;
    }
    let su = face_reading::setup(setup);
    if record.len() < 6 {
        return schedule_answers::short(answer, su);
    }
    let mut r = face_reading::record(record);
    let t = face_reading::time(secs, nanos);
    let a = insertions_public::insert_unwrapped_tc(su, &mut r, store, lens, rows, t, packet);
    let w = schedule_answers::inserted(a);
    telling::with_count(record, r.count, answer, w)
}

#[unsafe(no_mangle)]
pub extern "C" fn silotwist_insert_stored(
    setup: &[u64],
    record: &mut [u64],
    store: &mut [u8],
    lens: &mut [u16],
    rows: &mut [u64],
    secs: i64,
    nanos: u32,
    request_id: u64,
    address: u64,
    answer: &mut [u64],
) -> u32
    ensures { ScheduleFaces setup.now (word «record».old 0)
        (judged_call answer.old setup.now «record».old store.old lens.old rows.old
        (λ su. insert_stored_in su (record { secs = secs; nanos = nanos }) request_id address))
        (count_written «record».old)
        «record».old store.old lens.old rows.old answer.old result
        «record».new store.new lens.new rows.new answer.new }
{
    if answer.len() < 8 {
        return 2;
    }
    let su = face_reading::setup(setup);
    if record.len() < 6 {
        return schedule_answers::short(answer, su);
    }
    let mut r = face_reading::record(record);
    let t = face_reading::time(secs, nanos);
    let a = insertions_public::insert_unwrapped_and_stored_tc(
        su, &mut r, store, lens, rows, t, request_id, address,
    );
    let w = schedule_answers::done(a);
    telling::with_count(record, r.count, answer, w)
}
