// A siding: its tree of sections, its wagons and berths, and its page.
#![tactic(auto)]

pub mod layout;
mod page;
mod placed;
mod sheet;
pub mod siding;
mod tally;
pub mod track;

pub use siding::Siding;
