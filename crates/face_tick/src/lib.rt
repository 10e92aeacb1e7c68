// The release tick over words: lent words are read, the tick is called, and its answer and the count are written.
#![tactic(auto)]

ghost use Rattle.face_reading.specs.Reading.{word};
ghost use Rattle.face.specs.ScheduleFace.{count_written, judged_call};
ghost use Rattle.face.specs.TickFace.{TickFaces};
ghost use Rattle.tick.specs.Tick.{tick_in};

use face_words::telling;

pub fn tick(
    setup: &[u64],
    record: &mut [u64],
    store: &mut [u8],
    lens: &mut [u16],
    rows: &mut [u64],
    log: &mut [u8],
    limit: u64,
    delete_packets: bool,
    answer: &mut [u64],
) -> u32
    ensures { TickFaces setup.now (word «record».old 0)
        (judged_call answer.old setup.now «record».old store.old lens.old rows.old
        (λ su. tick_in limit delete_packets log.old))
        (count_written «record».old)
        «record».old store.old lens.old rows.old log.old answer.old result
        «record».new store.new lens.new rows.new log.new answer.new }
{
    if answer.len() < 8 {
        return 2;
    }
    let su = face_reading::setup(setup);
    if record.len() < 6 {
        return schedule_answers::short(answer, su);
    }
    let mut r = face_reading::record(record);
    let most = limit as usize;
    let a = tick_public::tick(su, &mut r, store, lens, rows, log, most, delete_packets);
    let w = schedule_answers::ticked(a);
    telling::with_count(record, r.count, answer, w)
}
