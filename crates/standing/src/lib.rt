// Standings, and the numbers by which a directory names them.
#![tactic(auto)]

mod choices;
pub mod number;
mod size;
pub mod standings;
mod triangle;
