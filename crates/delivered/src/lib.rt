// No code: the demands of the library as it is delivered, of lists of exported calls on bytes.
#![tactic(auto)]
