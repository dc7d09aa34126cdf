//! The rows of a specification.
mod clash;
mod covers;

use crate::literal::Literal;
use crate::short::Short;
pub(crate) use covers::bound_value;

/// One literal for each input, in their order: at most twelve.
pub type Pattern = Short<Literal, 12>;

/// A row: the output has the value wherever the pattern matches.
#[derive(Clone, Copy, Debug, PartialEq, Eq)]
pub struct SpecRow {
    /// The number of the output.
    pub output: usize,
    pub pattern: Pattern,
    pub value: bool,
}
