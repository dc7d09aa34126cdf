//! Where a line is.

/// A line by what it is: a stem, or a pin of a gate. All are counted from 0.
#[derive(Clone, Copy, Debug, PartialEq, Eq)]
pub enum Place {
    Stem(usize),
    Pin { gate: usize, position: usize },
}
