//! Searching a list of readings for every hit, and tracing a hit back.
#![tactic(auto)]

pub mod laws;
pub mod opening;
pub mod searching;
pub mod tracing;
