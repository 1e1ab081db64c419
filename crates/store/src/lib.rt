// A store of rows, each a key with its value, in partitions: bytes that the caller lends. Callers see rows by key. A walk over all
// rows of a partition asks once where their keys and values begin, and steps on from there.
#![tactic(auto)]

pub mod head;
pub mod rows;
