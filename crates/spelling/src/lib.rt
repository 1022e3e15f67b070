// Words of a text, and the bytes and levels that they spell; levels as text.
#![tactic(auto)]

pub mod hex;
pub mod kinds;
pub mod levels;
pub mod words;
pub mod written;
