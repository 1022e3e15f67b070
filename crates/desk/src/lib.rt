// A desk: a cell with the slip of its open run, to which calls can be put in any order.
#![tactic(auto)]

pub mod desk;
pub mod spare;
