//! The tables of a circuit.
mod find;
mod stems;

use crate::gate::{Gate, Output};
use crate::name::Name;

/// The inputs, the gates and the outputs of a circuit, each in its order.
#[derive(Drop)]
pub struct Circuit {
    pub(crate) inputs: Vec<Name>,
    pub(crate) gates: Vec<Gate>,
    pub(crate) outputs: Vec<Output>,
}
