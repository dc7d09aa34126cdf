//! Why a store refuses a call.
ghost use Rattle.std.specs.Prelude.{◌≡◌};
ghost use Rattle.stores.specs.Faults.{store_number};

/// Why a call of a store is refused. A refused call changes nothing.
#[derive(Clone, Copy, Debug, PartialEq, Eq)]
pub enum StoreFault {
    /// The store is started with no input, or with more than it takes.
    Inputs,
    /// More functions that are not constant would be held than there are places.
    Places,
    /// A handle that is not held, a variable or an assignment that does not exist, or a length that cannot be cut to.
    Bounds,
}

impl StoreFault {
    /// The number that this refusal has: 9, 10 or 15.
    pub fn number(self) -> usize
        ensures { result ≡ store_number self }
    {
        // The project's rule fixes these numbers, and they do not follow from the variants' order.
        match self {
            StoreFault::Inputs => 9,
            StoreFault::Places => 10,
            StoreFault::Bounds => 15,
        }
    }
}
