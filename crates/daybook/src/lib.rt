// A day: a siding's sheet and lines come in, and a line of answer goes out for the sheet and for each line.
#![tactic(auto)]

pub mod acts;
pub mod answer;
pub mod day;
pub mod input;
pub mod line;
pub mod opening;
