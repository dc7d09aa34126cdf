//! What a function store means.
ghost use Rattle.std.specs.Prelude.{◌≡◌, length};
ghost use Rattle.stores.specs.Meaning.{Meaning, Rule, Lawful, Starts, Takes, Joins, Flips, Fixes, Releases, Tells};

use crate::fault::StoreFault;
use crate::operation::Operation;

/// A store of functions of the inputs and one extra variable, e. Its meaning is the number of inputs, the most that it
/// takes, its places, and the list of the functions that it holds, which begins with false and true. A handle is a
/// position in that list. A call that yields a function answers its handle, and the list gains what the store's rule
/// keeps with that function and the list lacked, each function once; it is refused with 10 exactly where more functions
/// that are not constant would then be held than there are places.
pub trait Store {
    ghost meaning: { Self → Meaning };

    ghost keeping: { Rule };

    /// Begins anew with this number of inputs, holding false and true alone. Refused with 9 where the number is 0 or
    /// more than the store takes.
    fn start(&mut self, inputs: usize) -> Result<(), StoreFault>
        ensures starts { Starts (meaning self.old) inputs result (meaning self.new) };

    /// Yields a variable: 0 is e, and 1 to n are the inputs. Refused with 15 above n, and then with 10.
    fn variable(&mut self, v: usize) -> Result<usize, StoreFault>
        ensures takes { Takes keeping (meaning self.old) v result (meaning self.new) };

    /// Yields the and, the or, or the xor of two held functions. Refused with 15 where one is not held, and then with 10.
    fn join(&mut self, op: Operation, f: usize, g: usize) -> Result<usize, StoreFault>
        ensures joins { Joins keeping (meaning self.old) op f g result (meaning self.new) };

    /// Yields the complement of a held function. Refused with 15 where it is not held, and then with 10.
    fn flip(&mut self, f: usize) -> Result<usize, StoreFault>
        ensures flips { Flips keeping (meaning self.old) f result (meaning self.new) };

    /// Yields a held function with e set to a bit. Refused with 15 where it is not held, and then with 10.
    fn fix(&mut self, f: usize, bit: bool) -> Result<usize, StoreFault>
        ensures fixes { Fixes keeping (meaning self.old) f bit result (meaning self.new) };

    /// The bit of a held function at a value of e and an assignment. Refused with 15 where there is no such handle or
    /// assignment.
    fn value(&self, f: usize, e: bool, a: usize) -> Result<bool, StoreFault>
        ensures { Tells (meaning self.now) f e a result };

    /// How many functions are held, false and true among them.
    fn length(&self) -> usize
        ensures length { result ≡ length (meaning self.now).held }
        ensures lawful { Lawful keeping (meaning self.now) };

    /// Cuts the list to its first m functions. Refused with 15 where m is under 2 or above the length.
    fn release(&mut self, m: usize) -> Result<(), StoreFault>
        ensures releases { Releases (meaning self.old) m result (meaning self.new) };
}
