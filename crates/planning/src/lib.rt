// What a siding says after any calls, proved from its sheet and the calls alone.
#![tactic(auto)]

pub mod account;
pub mod replay;
