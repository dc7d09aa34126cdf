//! What reads a stem.
ghost use Rattle.circuits.specs.Pins.{unused};

use crate::short::Blank;

/// A reader of one stem, through an inversion where it is marked.
#[derive(Clone, Copy, Debug, PartialEq, Eq)]
pub struct Pin {
    /// The number of the stem: inputs first, then gates.
    pub stem: usize,
    // No `Option` of a stem: both are always there.
    pub mark: bool,
}

impl Blank for Pin {
    ghost is_blank = { unused };

    fn blank() -> Pin {
        Pin {
            stem: 0,
            mark: false,
        }
    }
}
