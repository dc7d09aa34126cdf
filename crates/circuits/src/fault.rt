//! Why a part is refused.

/// The rule that a part of a design would break.
#[derive(Clone, Copy, Debug, PartialEq, Eq)]
pub enum PartFault {
    /// A part of a later group stands already.
    Order,
    /// There are as many as there may be, or none where one is needed.
    Limit,
    /// A name is taken, or what is named does not exist.
    Naming,
    /// The number of pins does not fit the kind.
    PinCount,
    /// The pattern has not one literal for each input.
    Literals,
    /// An earlier row of the output has the other value at a common assignment.
    Contradiction,
}
