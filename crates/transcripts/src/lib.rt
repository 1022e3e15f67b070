// Rehearsals: the calls of a script put to a cell, line by line.
#![tactic(auto)]

mod line;
mod put;
pub mod reply;
mod serve;
pub mod session;
mod tell;
pub mod teller;
