// Lists of calls, and the third demand: definitions and proofs alone, no code.
#![tactic(auto)]
