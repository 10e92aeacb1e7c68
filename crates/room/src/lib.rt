// Demand 3, room never changes an answer: what it says and its proof. No code.
#![tactic(auto)]
