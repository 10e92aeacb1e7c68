// No code: the premises of the demands over the C face, met by words that are given.
#![tactic(auto)]
