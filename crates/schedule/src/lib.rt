// The run of a schedule of calls, and what is printed.
#![tactic(auto)]

pub mod calls;
pub mod input;
pub mod run;
