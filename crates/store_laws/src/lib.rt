// Laws of the static store: what follows from its promises. Definitions and laws; no code.
#![tactic(auto)]
