// Traffic on a quiet ring: definitions and proofs alone, no code.
#![tactic(auto)]
