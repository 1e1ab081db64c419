// A block: run on a copy of the registers with its PUTs kept beside the store, then written at once.
#![tactic(auto)]

mod log;
mod run;
pub mod write;
