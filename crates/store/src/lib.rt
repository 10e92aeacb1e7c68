// A static store: fixed slots in up to eight subpools, over slices that the caller lends: the calls of a caller that has judged.
#![tactic(auto)]

pub mod judged;
