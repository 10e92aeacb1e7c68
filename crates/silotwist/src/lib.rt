// The C face of include/silotwist.h: the store and the scheduler over slices and numbers.
#![tactic(auto)]

pub mod delete_calls;
pub mod insert_calls;
pub mod record_calls;
pub mod schedule_calls;
pub mod store_calls;
pub mod tick_call;
