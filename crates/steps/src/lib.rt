// The twelve steps of recipes, on the planes of one lent block.
#![tactic(auto)]

pub mod apply;
pub mod extent;
pub mod fold;
pub mod morphology;
mod place;
pub mod planes;
pub mod select;
pub mod way;
