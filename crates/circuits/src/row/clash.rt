//! When rows contradict each other.
ghost use Rattle.std.specs.Prelude.{◌≡◌};
ghost use Rattle.circuits.specs.Legality.{agrees};
ghost use Rattle.circuits.specs.Specification.{contradicts, meet, overlap};

use crate::literal::Literal;
use crate::row::SpecRow;

impl Literal {
    // Whether two literals match a common bit.
    fn overlaps(self, other: Literal) -> bool
        ensures { result ≡ overlap self other }
    {
        match self {
            Literal::Zero => other.matches(false),
            Literal::One => other.matches(true),
            Literal::Dash => true,
        }
    }
}

// Whether two patterns match a common assignment.
fn patterns_meet(first: &[Literal], second: &[Literal]) -> bool
    ensures { result ≡ meet first.now second.now }
{
    first.iter().zip(second).all(|(a, b)| a.overlaps(*b))
}

impl SpecRow {
    // Whether the two rows are of one output, have different values and cover a common assignment.
    fn clashes(&self, other: &SpecRow) -> bool
        ensures { result ≡ contradicts self.now other.now }
    {
        self.output == other.output
            && self.value != other.value
            && patterns_meet(self.pattern.as_slice(), other.pattern.as_slice())
    }

    // Whether the row contradicts none of these.
    pub(crate) fn agrees_with(&self, rows: &[SpecRow]) -> bool
        ensures { result ≡ agrees rows.now self.now }
    {
        rows.iter().all(|row| !row.clashes(self))
    }
}
