//! The gap between two neighbouring slots of a signature.

/// Strictly between the places of the two slots lie at least `lo` and at most `hi` places.
// Any two bytes: the laws are over all lists of gaps, and a signature's invariant has the bounds.
#[derive(Clone, Copy, PartialEq, Eq, Debug, Default)]
pub struct Gap {
    pub lo: u8,
    pub hi: u8,
}
