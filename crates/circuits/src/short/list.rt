//! The entries of a short list, one after the other.
ghost use Rattle.std.specs.Prelude.{◌≡◌, ⊤, ◌<◌, [], ◌∷◌, ◌++◌, length, MatchResult};
ghost use Rattle.std.specs.Cmp.{on_per, on_equiv};
ghost use Rattle.std.specs.Cmp.Lexicographic.{pointwise, lists_per, lists_equiv};
ghost use Rattle.circuits.specs.Shorts.{entries};

use crate::short::{Blank, Full, Short};
use std::alloc::AllocError;

// A derive of `Clone` is refused on a generic struct with a ghost field.
impl<T: Blank, const N: usize> Clone for Short<T, N> {
    ghost is_clone = { λ x y. y ≡ x };

    ghost is_infallible = { λ _. ⊤ };

    fn clone(&self) -> Result<Self, AllocError> {
        Ok(*self)
    }
}

// A derive would compare the lengths and the whole tables: two short lists are the same where their entries are.
impl<T: Blank + PartialEq, const N: usize> PartialEq for Short<T, N> {
    ghost eq = { λ x y. pointwise T.eq (entries x) (entries y) };

    ghost laws = { on_per entries (lists_per T.PartialEq.laws) };

    fn eq(&self, other: &Short<T, N>) -> bool {
        self.as_slice() == other.as_slice()
    }
}

impl<T: Blank + Eq, const N: usize> Eq for Short<T, N> {
    ghost laws = { on_equiv entries (lists_equiv T.Eq.laws) };
}

impl<T: Blank, const N: usize> Short<T, N> {
    /// No entries.
    pub fn none() -> Self
        ensures { entries result ≡ [] }
    {
        Short {
            table: [T::blank(); N],
            len: 0,
        }
    }

    /// Adds an entry at the end. It is refused where there are `N`.
    pub fn push(&mut self, entry: T) -> Result<(), Full>
        ensures { MatchResult result (λ _. (length (entries self.old) < N) × (entries self.new ≡ entries self.old ++ entry ∷ [])) (λ _. (length (entries self.old) ≡ N) × (self.new ≡ self.old)) }
    {
        // The length is read once: behind the write to the table it would be read from memory again.
        let len = self.len;
        if len == N {
            return Err(Full);
        }
        self.table[len] = entry;
        self.len = len + 1;
        Ok(())
    }

    // The entries in their order.
    pub(crate) fn as_slice(&self) -> &[T]
        ensures { result.now ≡ entries self.now }
    {
        let table: &[T] = &self.table;
        &table[0..self.len]
    }
}
