// The deletions by window and by request ID.
ghost use Rattle.deletions.specs.Deleting.{delete_window_in};
ghost use Rattle.by_id.specs.ById.{delete_by_id_in, delete_keeping_in};
ghost use Rattle.face_reading.specs.Reading.{window_from, word};
ghost use Rattle.face.specs.ScheduleFace.{ScheduleFaces, count_written, judged_call};

#[unsafe(no_mangle)]
pub extern "C" fn silotwist_delete_window(
    setup: &[u64],
    record: &mut [u64],
    store: &mut [u8],
    lens: &mut [u16],
    rows: &mut [u64],
    has_from: bool,
    from_secs: i64,
    from_nanos: u32,
    has_to: bool,
    to_secs: i64,
    to_nanos: u32,
    answer: &mut [u64],
) -> u32
    ensures { ScheduleFaces setup.now (word «record».old 0)
        (judged_call answer.old setup.now «record».old store.old lens.old rows.old
        (λ su. delete_window_in (window_from
        has_from (record { secs = from_secs; nanos = from_nanos }) has_to (record { secs = to_secs; nanos = to_nanos }))))
        (count_written «record».old)
        «record».old store.old lens.old rows.old answer.old result
        «record».new store.new lens.new rows.new answer.new }
{
    silotwist::delete_calls::silotwist_delete_window(
        setup, record, store, lens, rows, has_from, from_secs, from_nanos, has_to, to_secs,
        to_nanos, answer,
    )
}

#[unsafe(no_mangle)]
pub extern "C" fn silotwist_delete_by_id_keep(
    setup: &[u64],
    record: &mut [u64],
    store: &mut [u8],
    lens: &mut [u16],
    rows: &mut [u64],
    request_id: u64,
    answer: &mut [u64],
) -> u32
    ensures { ScheduleFaces setup.now (word «record».old 0)
        (judged_call answer.old setup.now «record».old store.old lens.old rows.old
        (λ su. delete_keeping_in request_id))
        (count_written «record».old)
        «record».old store.old lens.old rows.old answer.old result
        «record».new store.new lens.new rows.new answer.new }
{
    silotwist::delete_calls::silotwist_delete_by_id_keep(
        setup, record, store, lens, rows, request_id, answer,
    )
}

#[unsafe(no_mangle)]
pub extern "C" fn silotwist_delete_by_id(
    setup: &[u64],
    record: &mut [u64],
    store: &mut [u8],
    lens: &mut [u16],
    rows: &mut [u64],
    request_id: u64,
    answer: &mut [u64],
) -> u32
    ensures { ScheduleFaces setup.now (word «record».old 0)
        (judged_call answer.old setup.now «record».old store.old lens.old rows.old
        (λ su. delete_by_id_in request_id))
        (count_written «record».old)
        «record».old store.old lens.old rows.old answer.old result
        «record».new store.new lens.new rows.new answer.new }
{
    silotwist::delete_calls::silotwist_delete_by_id(
        setup, record, store, lens, rows, request_id, answer,
    )
}
