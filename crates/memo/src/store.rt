//! A memo is a function store.
ghost use Rattle.std.specs.Prelude.{◌≡◌};
ghost use Rattle.stores.specs.Meaning.{Starts, Takes, Joins, Flips, Fixes, Releases};
ghost use Rattle.memo.specs.Memos.{Memoized, Started, Released};

use crate::memo::{Memo, forget};
use stores::{Call, Operation, Store, StoreFault};

// The `memo` clauses name what the memo had and has, field by field: that is what they promise.
impl<S: Store> Store for Memo<S> {
    ghost meaning = { λ s. S.Store.meaning s.below };

    ghost keeping = { S.Store.keeping };

    // A granted start forgets all.
    fn start(&mut self, inputs: usize) -> Result<(), StoreFault>
        ensures starts { Starts (S.Store.meaning self.old.below) inputs result (S.Store.meaning self.new.below) }
        ensures memo { Started self.old.entries result self.new.entries }
    {
        self.below.start(inputs)?;
        self.entries = [None; 64];
        Ok(())
    }

    fn variable(&mut self, v: usize) -> Result<usize, StoreFault>
        ensures takes { Takes S.Store.keeping (S.Store.meaning self.old.below) v result (S.Store.meaning self.new.below) }
        ensures memo { Memoized S.Store.keeping (S.Store.meaning self.old.below) (Call.Variable v) self.old.below self.old.entries result (S.Store.meaning self.new.below) self.new.below self.new.entries }
    {
        self.answer(Call::Variable(v))
    }

    fn join(&mut self, op: Operation, f: usize, g: usize) -> Result<usize, StoreFault>
        ensures joins { Joins S.Store.keeping (S.Store.meaning self.old.below) op f g result (S.Store.meaning self.new.below) }
        ensures memo { Memoized S.Store.keeping (S.Store.meaning self.old.below) (Call.Join op f g) self.old.below self.old.entries result (S.Store.meaning self.new.below) self.new.below self.new.entries }
    {
        self.answer(Call::Join(op, f, g))
    }

    fn flip(&mut self, f: usize) -> Result<usize, StoreFault>
        ensures flips { Flips S.Store.keeping (S.Store.meaning self.old.below) f result (S.Store.meaning self.new.below) }
        ensures memo { Memoized S.Store.keeping (S.Store.meaning self.old.below) (Call.Flip f) self.old.below self.old.entries result (S.Store.meaning self.new.below) self.new.below self.new.entries }
    {
        self.answer(Call::Flip(f))
    }

    fn fix(&mut self, f: usize, bit: bool) -> Result<usize, StoreFault>
        ensures fixes { Fixes S.Store.keeping (S.Store.meaning self.old.below) f bit result (S.Store.meaning self.new.below) }
        ensures memo { Memoized S.Store.keeping (S.Store.meaning self.old.below) (Call.Fix f bit) self.old.below self.old.entries result (S.Store.meaning self.new.below) self.new.below self.new.entries }
    {
        self.answer(Call::Fix(f, bit))
    }

    fn value(&self, f: usize, e: bool, a: usize) -> Result<bool, StoreFault> {
        self.below.value(f, e, a)
    }

    fn length(&self) -> usize {
        self.below.length()
    }

    // A granted release forgets each call that ended with a longer list than is left.
    fn release(&mut self, m: usize) -> Result<(), StoreFault>
        ensures releases { Releases (S.Store.meaning self.old.below) m result (S.Store.meaning self.new.below) }
        ensures memo { Released m self.old.entries result self.new.entries }
    {
        self.below.release(m)?;
        forget(&mut self.entries, m);
        Ok(())
    }
}
