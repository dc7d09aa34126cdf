//! A store that counts the calls that reach it.
ghost use Rattle.stores.specs.Calls.{Asks};

use stores::{Call, Operation, Store, StoreFault};

/// A store over another that counts the calls that yield a function.
#[derive(Drop)]
pub(crate) struct Counting<S: Store> {
    pub(crate) below: S,
    pub(crate) calls: usize,
}

impl<S: Store> Counting<S> {
    // Counts a call that yields a function, and makes it of the store below.
    fn answer(&mut self, call: Call) -> Result<usize, StoreFault>
        ensures { Asks S.Store.keeping (S.Store.meaning self.old.below) call result (S.Store.meaning self.new.below) }
    {
        self.calls = self.calls.wrapping_add(1);
        call.ask(&mut self.below)
    }
}

impl<S: Store> Store for Counting<S> {
    ghost meaning = { λ s. S.Store.meaning s.below };

    ghost keeping = { S.Store.keeping };

    fn start(&mut self, inputs: usize) -> Result<(), StoreFault> {
        self.below.start(inputs)
    }

    fn variable(&mut self, v: usize) -> Result<usize, StoreFault> {
        self.answer(Call::Variable(v))
    }

    fn join(&mut self, op: Operation, f: usize, g: usize) -> Result<usize, StoreFault> {
        self.answer(Call::Join(op, f, g))
    }

    fn flip(&mut self, f: usize) -> Result<usize, StoreFault> {
        self.answer(Call::Flip(f))
    }

    fn fix(&mut self, f: usize, bit: bool) -> Result<usize, StoreFault> {
        self.answer(Call::Fix(f, bit))
    }

    fn value(&self, f: usize, e: bool, a: usize) -> Result<bool, StoreFault> {
        self.below.value(f, e, a)
    }

    fn length(&self) -> usize {
        self.below.length()
    }

    fn release(&mut self, m: usize) -> Result<(), StoreFault> {
        self.below.release(m)
    }
}
