// The words that every rule is written in: tests in order, and answers by document 01's numbers. Definitions and laws; no code.
#![tactic(auto)]
