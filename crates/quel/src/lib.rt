// The model: definitions in specs/, theorems in proofs/. It has no code.

#![tactic(auto)]
