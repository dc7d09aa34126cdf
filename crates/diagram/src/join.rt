//! Joining two diagrams.
ghost use Rattle.std.specs.Prelude.{min, [], ◌∷◌};
ghost use Rattle.stores.specs.Functions.{joined};
ghost use Rattle.stores.specs.Meaning.{Yields};
ghost use Rattle.diagram.specs.Diagrams.{Held, Extends, Builds, Settled, top_of, function_of, diagram_meaning};
ghost use Rattle.diagram.specs.Subfunctions.{subfunctions};

use crate::diagram::Diagram;
use stores::{Operation, StoreFault};

// The handle of a join that needs no row, since one of the handles is a constant's or both are the same.
fn settled(op: Operation, f: usize, g: usize) -> Option<usize>
    ensures { Settled op f g result }
{
    // Handles 0 and 1 are positions in the list that the interface fixes: false and true.
    match (op, f, g) {
        (Operation::And, 0, _) | (Operation::And, _, 0) => Some(0),
        (Operation::And, 1, h) | (Operation::And, h, 1) => Some(h),
        (Operation::Or, 1, _) | (Operation::Or, _, 1) => Some(1),
        (Operation::Or, 0, h) | (Operation::Or, h, 0) => Some(h),
        (Operation::Xor, 0, h) | (Operation::Xor, h, 0) => Some(h),
        _ if f != g => None,
        (Operation::Xor, _, _) => Some(0),
        _ => Some(f),
    }
}

// An operation and two handles come as the interface's `join` gets them.
impl Diagram<'_> {
    // Yields the join of two held functions, going down both diagrams by their first variable.
    pub(crate) fn join_down(
        &mut self,
        op: Operation,
        f: usize,
        g: usize,
    ) -> Result<usize, StoreFault>
        requires left { Held self.old f }
        requires right { Held self.old g }
        ensures extends { Extends self.old self.new }
        ensures builds { Builds self.old (joined op (function_of self.old f) (function_of self.old g)) (min (top_of self.old f) (top_of self.old g)) result self.new }
    {
        if let Some(h) = settled(op, f, g) {
            return Ok(h);
        }
        let v = self.top(f).min(self.top(g));
        let (f_low, f_high) = self.parts(f, v);
        let (g_low, g_high) = self.parts(g, v);
        let low = self.join_down(op, f_low, g_low)?;
        let high = self.join_down(op, f_high, g_high)?;
        self.node(v, low, high)
    }

    // Yields the join of two held functions, and leaves the rows as they were where it is refused.
    pub(crate) fn join_whole(
        &mut self,
        op: Operation,
        f: usize,
        g: usize,
    ) -> Result<usize, StoreFault>
        requires left { Held self.old f }
        requires right { Held self.old g }
        ensures { Yields subfunctions (diagram_meaning self.old) (Unit {0}) (joined op (function_of self.old f) (function_of self.old g) ∷ []) (joined op (function_of self.old f) (function_of self.old g)) result (diagram_meaning self.new) }
    {
        let before = self.len;
        let answer = self.join_down(op, f, g);
        if answer.is_err() {
            self.cut(before);
        }
        answer
    }
}
