//! Gates with their pins, and outputs.
mod reads;

use crate::kind::Kind;
use crate::name::Name;
use crate::pin::Pin;
use crate::short::Short;

/// The pins of a gate, in their order: at most four.
pub type Pins = Short<Pin, 4>;

/// A gate of a circuit.
#[derive(Clone, Copy, Debug, PartialEq, Eq)]
pub struct Gate {
    pub name: Name,
    pub kind: Kind,
    pub pins: Pins,
}

/// An output of a circuit: it reads one stem.
#[derive(Clone, Copy, Debug, PartialEq, Eq)]
pub struct Output {
    pub name: Name,
    pub pin: Pin,
}
