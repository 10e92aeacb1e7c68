// The log that a tick leaves, as its reader finds it. Definitions and laws; no code.
#![tactic(auto)]
