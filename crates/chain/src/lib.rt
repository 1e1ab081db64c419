// Demands 1, 2 and 3 of calls on bytes: definitions in specs/, theorems in proofs/. There is no code.
#![tactic(auto)]
