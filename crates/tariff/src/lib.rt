// Tariffs: what the moves of a list are charged.
#![tactic(auto)]

pub mod amount;
pub mod measure;
pub mod metres;
pub mod move_count;
pub mod pair;
pub mod repeated;
pub mod steepest;
mod table;
pub mod tariff;

pub use tariff::Tariff;
