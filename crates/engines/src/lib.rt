//! Engines: each turns the fits of one reading after another into mark words.
#![tactic(auto)]

pub mod engine;
mod layout;
pub mod mask;
mod ones;
pub mod ring;
mod shape;
mod strips;
mod windows;
pub mod word;
