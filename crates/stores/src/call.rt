//! The calls of a store that yield a function, as values.
ghost use Rattle.stores.specs.Calls.{Asks};

use crate::fault::StoreFault;
use crate::operation::Operation;
use crate::store::Store;

/// A call of a store that yields a function, with what it is passed.
#[derive(Clone, Copy, PartialEq, Eq, Debug)]
pub enum Call {
    Variable(usize),
    Join(Operation, usize, usize),
    Flip(usize),
    Fix(usize, bool),
}

impl Call {
    /// Makes this call of a store.
    pub fn ask<S: Store>(self, store: &mut S) -> Result<usize, StoreFault>
        ensures { Asks S.keeping (S.meaning store.old) self result (S.meaning store.new) }
    {
        match self {
            Call::Variable(v) => store.variable(v),
            Call::Join(op, f, g) => store.join(op, f, g),
            Call::Flip(f) => store.flip(f),
            Call::Fix(f, bit) => store.fix(f, bit),
        }
    }
}
