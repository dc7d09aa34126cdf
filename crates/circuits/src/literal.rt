//! What a pattern asks of one input.
ghost use Rattle.circuits.specs.Patterns.{is_dash};

use crate::short::Blank;

/// What a pattern asks of one input: `0`, `1`, or `-` for either.
#[derive(Clone, Copy, Debug, PartialEq, Eq)]
pub enum Literal {
    Zero,
    One,
    Dash,
}

impl Blank for Literal {
    ghost is_blank = { is_dash };

    fn blank() -> Literal {
        Literal::Dash
    }
}
