// Examples of sidings and of bad input, tried on the proved crates. What is expected comes from the rules in docs/.
#![tactic(auto)]

#[cfg(test)]
mod days;
#[cfg(test)]
mod plans;
#[cfg(test)]
mod refusals;
#[cfg(test)]
mod sidings;
#[cfg(test)]
mod standings;
#[cfg(test)]
mod tariffs;
