//! What a gauge is, and how the text of a signature is read with any gauge whose slots are written.
#![tactic(auto)]

pub mod gauge;
pub mod join;
pub mod reader;
