// The lent lists from what they stand for: a promise in the view's terms fixes both. Laws; no code.
#![tactic(auto)]
