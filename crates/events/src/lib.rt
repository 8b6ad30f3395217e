//! Searching event codes for the text of a signature, with any engine.
#![tactic(auto)]

pub mod outcome;
pub mod searching;
