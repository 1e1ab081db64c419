// What is printed of a case: answers, stores with their rows by rising stored key, records, parts of a pack.
//
// Every function is proved safe: it reads and writes within its bytes, and ends. The texts of the lines and their order are only executed,
// and held to the second supplier's output.
#![tactic(auto)]

pub mod case_lines;
pub mod print;
pub mod rows;
