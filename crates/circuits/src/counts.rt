//! How much there is of a circuit.

/// The numbers of inputs, gates and outputs.
#[derive(Clone, Copy, Debug, PartialEq, Eq)]
pub struct Counts {
    pub inputs: usize,
    pub gates: usize,
    pub outputs: usize,
}
