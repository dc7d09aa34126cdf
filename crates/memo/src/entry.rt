//! What a memo remembers of a call, and where.
ghost use Rattle.std.specs.Prelude.{◌≡◌, ◌<◌};
ghost use Rattle.memo.specs.Calls.{place_of};

use stores::Call;

/// A call that was answered: the handle, and the length of the list at its end.
#[derive(Clone, Copy, Debug, PartialEq, Eq)]
pub struct Entry {
    pub(crate) call: Call,
    pub(crate) answer: usize,
    pub(crate) length: usize,
}

// The place of a call among the 64 entries, by its two numbers and the number of what it does. A fix has the bit as its
// second number; a flip and a variable have 0. The documents name these numbers, and what a program prints depends on
// them.
#[inline(always)]
#[tactic(auto, unfolding(crate::specs::Calls::place_of))]
pub(crate) fn place(call: Call) -> usize
    ensures { (result ≡ place_of call) × (result < 64) }
{
    let (first, second, number) = match call {
        Call::Variable(v) => (v, 0, 5),
        Call::Join(op, f, g) => (f, g, op as usize),
        Call::Flip(f) => (f, 0, 3),
        Call::Fix(f, bit) => (f, bit as usize, 4),
    };
    (first % 64 + 3 * (second % 64) + number) % 64
}
