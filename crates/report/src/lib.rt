// What is told of a recipe, as text: a listing's lines, and the answer to its admission.
#![tactic(auto)]

pub mod letters;
pub mod line;
pub mod listing;
pub mod verdict;
