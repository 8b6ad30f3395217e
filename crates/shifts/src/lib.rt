//! Shifts: any list of calls on a record, carried out one after another.
#![tactic(auto)]

pub mod carrying;
pub mod laws;
pub mod replay;
pub mod request;
