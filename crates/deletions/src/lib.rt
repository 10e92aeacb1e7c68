// The deletions of several entries (document 01, module 5): by window, and `reset`.
#![tactic(auto)]

pub mod deleting;
