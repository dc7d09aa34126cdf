//! Records taken apart into their fields.
mod netlist;
mod specification;

use circuits::{Kind, Name};
pub(crate) use netlist::netlist_shape;
pub(crate) use specification::row_shape;

/// A record of the netlist, the pins of a gate as they are written.
#[derive(Clone, Copy, Debug, PartialEq, Eq)]
pub(crate) enum Shaped<'a> {
    Input {
        name: Name,
    },
    Gate {
        name: Name,
        kind: Kind,
        pins: &'a [u8],
    },
    Output {
        name: Name,
        // beside the stem, as in a pin
        mark: bool,
        stem: Name,
    },
}

/// A record of the specification: each field as it is written.
#[derive(Clone, Copy, Debug, PartialEq, Eq)]
pub(crate) struct RowFields<'a> {
    pub(crate) output: &'a [u8],
    pub(crate) pattern: &'a [u8],
    pub(crate) value: &'a [u8],
}
