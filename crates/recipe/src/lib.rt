// Recipes: records read into steps, checked against the stack of planes, and summed up on an admission sheet.
#![tactic(auto)]

mod check;
pub mod element;
pub mod entry;
pub mod fault;
pub mod kind;
pub mod laws;
pub mod mirror;
mod place;
pub mod plan;
mod read;
pub mod step;
pub mod table;
