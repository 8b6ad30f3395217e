//! The gauges: each says for its kind of reading which slots a reading fits.
#![tactic(auto)]

pub mod band;
pub mod barring;
mod bits;
pub mod both;
mod code_set;
pub mod codes;
pub mod current;
mod edges;
pub mod entry;
pub mod event;
pub mod grammar;
pub mod pair;
mod slots;
pub mod texts;
