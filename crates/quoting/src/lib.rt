// What a siding is quoted under a tariff, and what it says after any calls, quote and all.
#![tactic(auto)]

pub mod account;
pub mod quote;
pub mod replay;
