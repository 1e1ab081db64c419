// Document 01 and requests W-201, W-203 and W-206 of document 02 without bytes: definitions in specs/; demand 3, request number zero and
// reading a key never written over them in proofs/. No code.
#![tactic(auto)]
