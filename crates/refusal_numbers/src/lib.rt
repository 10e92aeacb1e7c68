// The numbers of refusals in document 01's table ("Refusal numbers"), for the programs that put refusals into words.
#![tactic(auto)]

ghost use Rattle.std.specs.Prelude.{◌≡◌};
ghost use Rattle.record.specs.Refusals.{paper};
ghost use Rattle.lookup.specs.Refusals.{bad_paper, paper as store_paper};

use record::ScheduleRefusal;
use slots::{StoreIdError, StoreRefusal};

fn id_number(e: StoreIdError) -> u64
    ensures { result ≡ (bad_paper e).number }
{
    match e {
        StoreIdError::InvalidSubpool(_) => 16,
        StoreIdError::InvalidPacketIdx(_) => 17,
    }
}

#[tactic(auto, unfolding(lookup::specs::Refusals::paper))]
pub fn of_store(e: StoreRefusal) -> u64
    ensures { result ≡ (store_paper e).number }
{
    match e {
        StoreRefusal::BadSetup => 1,
        StoreRefusal::BadBuffers => 2,
        StoreRefusal::StateDamaged => 3,
        StoreRefusal::DataTooLarge(_) => 11,
        StoreRefusal::StoreFull(_) => 12,
        StoreRefusal::InvalidStoreId(b) => id_number(b),
        StoreRefusal::DataDoesNotExist(_) => 18,
        StoreRefusal::BufferTooSmall { .. } => 19,
    }
}

#[tactic(auto, unfolding(record::specs::Refusals::paper))]
pub fn of_schedule(e: ScheduleRefusal) -> u64
    ensures { result ≡ (paper e).number }
{
    match e {
        ScheduleRefusal::Store(s) => of_store(s),
        ScheduleRefusal::BadTime => 4,
        ScheduleRefusal::WrongService(_) => 5,
        ScheduleRefusal::WrongSubservice(_) => 6,
        ScheduleRefusal::TcDataEmpty => 7,
        ScheduleRefusal::BadTimestamp => 8,
        ScheduleRefusal::TcUnreadable => 9,
        ScheduleRefusal::NestedScheduledTc => 10,
        ScheduleRefusal::ReleaseTimeInTimeMargin { .. } => 13,
        ScheduleRefusal::ScheduleFull => 14,
        ScheduleRefusal::ReversedWindow => 15,
        ScheduleRefusal::LogTooSmall(_) => 20,
    }
}
