//! The rows of a diagram.

use crate::link::Link;

/// A variable, and the handles of what is left of a function where the variable is 0 and where it is 1.
#[derive(Clone, Copy, Debug, PartialEq, Eq)]
pub(crate) struct Node {
    pub(crate) variable: u8,
    pub(crate) low: u16,
    pub(crate) high: u16,
}

/// A row of a diagram: the node of the row's function. A row also has the link of its chain, for the search for equal
/// rows.
// Rows name rows by handles, and no boxes: their memory is lent, and a store takes none of its own.
#[derive(Clone, Copy, Debug, PartialEq, Eq)]
pub struct Row {
    pub(crate) node: Node,
    pub(crate) next: Link,
}

impl Row {
    /// A row to make the slice of that a diagram is lent: what it holds is never read.
    pub const BLANK: Row = Row {
        node: Node {
            variable: 0,
            low: 0,
            high: 0,
        },
        next: Link::NONE,
    };
}
