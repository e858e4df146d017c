//! Tests of public calls of the target and of the crates below it, except `sg_wire`. They test what
//! no contract says, and that the definitions agree with the standards.
#![tactic(auto)]

#[cfg(test)]
mod attentions;
#[cfg(test)]
mod identity;
#[cfg(test)]
mod stores;
#[cfg(test)]
mod target;
