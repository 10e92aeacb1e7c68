// The deletions by request ID (document 01, module 5): one keeps the packet, the other deletes it too.
#![tactic(auto)]

pub mod judged;
