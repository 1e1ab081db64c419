// Cases, each a schedule, a single call or a list of calls on any bytes: found in a file, run, and printed.
//
// Every function is proved safe: it reads and writes within its bytes, and ends. Proved besides: where the parts of a case end
// (`parts`). The calls that are made here have the promises of their own crates. Only executed, and held to the second supplier's
// output: which call a case stands for.
#![tactic(auto)]

pub mod call;
pub mod parts;
pub mod run;

pub use schedule::input;
