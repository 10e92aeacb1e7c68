// The calls that see the record alone.
ghost use Rattle.std.specs.Prelude.{false, true};
ghost use Rattle.record.specs.Record.{clock_in, mark_in};
ghost use Rattle.face.specs.RecordFace.{RecordFaces, clock_written, mark_written, record_call};

#[unsafe(no_mangle)]
pub extern "C" fn silotwist_set_clock(
    record: &mut [u64],
    secs: i64,
    nanos: u32,
    answer: &mut [u64],
) -> u32
    ensures { RecordFaces
        (record_call answer.old «record».old (clock_in (record { secs = secs; nanos = nanos })))
        (clock_written «record».old)
        «record».old answer.old result «record».new answer.new }
{
    silotwist::record_calls::silotwist_set_clock(record, secs, nanos, answer)
}

#[unsafe(no_mangle)]
pub extern "C" fn silotwist_enable(record: &mut [u64], answer: &mut [u64]) -> u32
    ensures { RecordFaces
        (record_call answer.old «record».old (mark_in true))
        (mark_written «record».old)
        «record».old answer.old result «record».new answer.new }
{
    silotwist::record_calls::silotwist_enable(record, answer)
}

#[unsafe(no_mangle)]
pub extern "C" fn silotwist_disable(record: &mut [u64], answer: &mut [u64]) -> u32
    ensures { RecordFaces
        (record_call answer.old «record».old (mark_in false))
        (mark_written «record».old)
        «record».old answer.old result «record».new answer.new }
{
    silotwist::record_calls::silotwist_disable(record, answer)
}
