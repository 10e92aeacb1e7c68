// What each call of the C face (include/silotwist.h) promises over words, and how it follows from what the calls below promise. No code.
#![tactic(auto)]
