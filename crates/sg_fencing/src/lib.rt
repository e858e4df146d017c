//! Laws of the target's definitions: what a refused command leaves, and what others can do to the
//! holder of a persistent reservation (SPC-4, 5.13). Others are of comparisons, of reports and of a stopped
//! unit. Nothing here runs.
#![tactic(auto)]

pub mod comparisons;
pub mod exchanges;
pub mod laws;
pub mod reports;
pub mod room;
pub mod stopping;
