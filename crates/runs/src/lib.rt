//! What a signature is, how far its runs reach, and the laws of runs, marks, hits and traces.
#![tactic(auto)]

pub mod bits;
pub mod gap;
pub mod laws;
pub mod signature;
