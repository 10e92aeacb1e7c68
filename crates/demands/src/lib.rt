// The demands over lent tables: what they say of the calls' own promises, one call after another, and their proofs. No code.
#![tactic(auto)]
