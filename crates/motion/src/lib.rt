// The mathematics of a siding over plain lists: its tree, its demands, its moves, and what calls make of it.
#![tactic(auto)]

pub mod calls;
pub mod laws;
pub mod moves;
pub mod ways;
