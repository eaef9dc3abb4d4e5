// Equations over bits.

use crate::Items;

/// Two bits differ where the equation is odd, and are equal otherwise.
#[derive(Clone, Copy, Debug, PartialEq, Eq)]
pub struct Equation {
    /// The number of the one bit.
    pub x: usize,
    /// The number of the other bit, which may be the same.
    pub y: usize,
    /// Whether the two bits differ.
    pub odd: bool,
}

/// A row of equations, which contracts see as the list of them.
pub type Equations = Items<Equation>;
