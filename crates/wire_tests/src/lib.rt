//! Tests of public calls of `sg_wire`, and of `sg_decode` and `sg_tools`, which stand only on it.
//! They test what no contract says, and that the definitions agree with the standards. They stand
//! here, because a crate that has tests is proved twice.
#![tactic(auto)]

#[cfg(test)]
mod command;
#[cfg(test)]
mod cut;
#[cfg(test)]
mod extended_command;
#[cfg(test)]
mod extended_fault;
#[cfg(test)]
mod format;
#[cfg(test)]
mod next_start;
#[cfg(test)]
mod print;
#[cfg(test)]
mod printer;
#[cfg(test)]
mod sense;
#[cfg(test)]
mod supported;
#[cfg(test)]
mod tools;
#[cfg(test)]
mod unmap_list;
#[cfg(test)]
mod verify;
#[cfg(test)]
mod watched;
