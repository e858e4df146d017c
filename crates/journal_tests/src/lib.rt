//! Tests of public calls of `sg_journal`. They test what no contract says, and that the definitions
//! agree with files that were laid out by hand. They are in a crate of their own,
//! because a crate that has tests is proved twice.
#![tactic(auto)]

#[cfg(test)]
mod files;
#[cfg(test)]
mod openings;
#[cfg(test)]
mod writes;
