//! The operations that join two functions.

/// What a join makes of two bits.
#[derive(Clone, Copy, Debug, PartialEq, Eq)]
pub enum Operation {
    And,
    Or,
    Xor,
}
