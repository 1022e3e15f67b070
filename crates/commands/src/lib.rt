// What the lines of a script ask for.
#![tactic(auto)]

pub mod command;
