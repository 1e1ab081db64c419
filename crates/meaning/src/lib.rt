// What lent bytes and records mean, the questions put to them, and the promise of a call: definitions in specs/, laws in proofs/. There is
// no code.
#![tactic(auto)]
