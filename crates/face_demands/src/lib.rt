// No code: the demands over calls of the C face.
#![tactic(auto)]
