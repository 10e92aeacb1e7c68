// Laws of the turns of a tick: what follows from their definitions. Definitions and laws; no code.
#![tactic(auto)]
