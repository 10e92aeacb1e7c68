// The wrapped insertion (document 01, module 5): a packet of service 11, subservice 4, whose user data is a stamp and the command.
#![tactic(auto)]

pub mod judged;
