// The recipe cell: one recipe, one frame at a time, over one lent block.
#![tactic(auto)]

pub mod calls;
pub mod fault;
pub mod laws;
pub mod run;
pub mod setup;
