//! Which assignments a row covers, and what rows bind an output to.
ghost use Rattle.std.specs.Prelude.{◌≡◌};
ghost use Rattle.circuits.specs.Specification.{literal_list, matches, covers, binds, bound};

use crate::literal::Literal;
use crate::row::{Pattern, SpecRow};

impl Literal {
    // Whether the literal matches a bit.
    pub(super) fn matches(self, bit: bool) -> bool
        ensures { result ≡ matches self bit }
    {
        match self {
            Literal::Zero => !bit,
            Literal::One => bit,
            Literal::Dash => true,
        }
    }
}

impl Pattern {
    // Whether the pattern matches an assignment, whose highest bit is the first input.
    fn covers(&self, assignment: usize) -> bool
        ensures { result ≡ covers (literal_list self.now) assignment }
    {
        let literals = self.as_slice();
        let inputs = literals.len();
        literals.iter().enumerate().all(|(i, literal)| literal.matches(
            (assignment >> (inputs - 1 - i)) % 2 == 1,
        ))
    }
}

impl SpecRow {
    // Whether the row speaks of an output at an assignment.
    fn binds(&self, output: usize, assignment: usize) -> bool
        ensures { result ≡ binds self.now output assignment }
    {
        self.output == output && self.pattern.covers(assignment)
    }
}

// The value that an output must have at an assignment, if a row covers it.
pub(crate) fn bound_value(rows: &[SpecRow], output: usize, assignment: usize) -> Option<bool>
    ensures { result ≡ bound rows.now output assignment }
{
    rows.iter()
        .find(|row| row.binds(output, assignment))
        .map(|row| row.value)
}
