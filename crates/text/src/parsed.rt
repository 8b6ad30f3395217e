//! What is read from a place of a text on.

/// What was read, and the place behind it.
#[derive(Clone, Copy)]
pub struct Parsed<T> {
    pub value: T,
    pub end: usize,
}
