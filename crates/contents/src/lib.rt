// The store of the rules that bytes hold: definitions in specs/, laws in proofs/. There is no code.
#![tactic(auto)]
