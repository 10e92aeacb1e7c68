// The scheduler as a whole: requests one at a time, over the definitions of the calls below, and the laws. Definitions and laws; no code.
#![tactic(auto)]
