// Document 01's worked lines that are marked T: one table, and one proved statement over it. No code.
#![tactic(auto)]
