//! Refusals, and the parts that every text is read by: digit words, numbers, signed numbers and marks.
#![tactic(auto)]

pub mod lexer;
pub mod mark;
pub mod number;
pub mod parsed;
pub mod refusal;
pub mod signed;
