// The release tick.
ghost use Rattle.face_reading.specs.Reading.{word};
ghost use Rattle.face.specs.ScheduleFace.{count_written, judged_call};
ghost use Rattle.face.specs.TickFace.{TickFaces};
ghost use Rattle.tick.specs.Tick.{tick_in};

#[unsafe(no_mangle)]
pub extern "C" fn silotwist_tick(
    setup: &[u64],
    record: &mut [u64],
    store: &mut [u8],
    lens: &mut [u16],
    rows: &mut [u64],
    log: &mut [u8],
    limit: u64,
    delete_packets: bool,
    answer: &mut [u64],
) -> u32
    ensures { TickFaces setup.now (word «record».old 0)
        (judged_call answer.old setup.now «record».old store.old lens.old rows.old
        (λ su. tick_in limit delete_packets log.old))
        (count_written «record».old)
        «record».old store.old lens.old rows.old log.old answer.old result
        «record».new store.new lens.new rows.new log.new answer.new }
{
    silotwist::tick_call::silotwist_tick(
        setup,
        record,
        store,
        lens,
        rows,
        log,
        limit,
        delete_packets,
        answer,
    )
}
