// Lists of moves and of sums in a caller's slice: the plan, the bill, and the check of a list that somebody brings.
#![tactic(auto)]

pub mod bill;
mod book;
pub mod check;
mod filling;
pub mod list;
mod moving;
pub mod offer;
pub mod plan;
mod planner;
mod writer;
