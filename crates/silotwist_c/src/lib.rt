// What C links: the functions of include/silotwist.h, each with silotwist's own contract and nothing but its call.
#![tactic(auto)]

pub mod delete_calls;
pub mod insert_calls;
pub mod record_calls;
pub mod schedule_calls;
pub mod store_calls;
pub mod tick_call;
