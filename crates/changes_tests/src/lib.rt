//! Tests of public calls of `sg_changes`. They test what no contract says, and that the tables of
//! the format give the bytes that are written out here by hand. They stand here, because a crate
//! that has tests is proved twice.
#![tactic(auto)]

#[cfg(test)]
mod buffer;
#[cfg(test)]
mod records;
#[cfg(test)]
mod replay;
