//! The memo: what it holds, and how it remembers.
ghost use Rattle.std.specs.Prelude.{◌≡◌, replicate, None};
ghost use Rattle.stores.specs.Calls.{Asks};
ghost use Rattle.memo.specs.Memos.{SoundMemo, Recalled, Memoized, Forgets};
ghost use Rattle.memo.specs.Props.{SoundMemo-prop};

use crate::entry::{Entry, place};
use stores::{Call, Store, StoreFault};

/// A store over another store, which it owns. It remembers up to 64 answered calls that yielded a function, always with
/// the newest, and answers a remembered call without a call of the store below.
#[derive(Drop)]
pub struct Memo<S: Store> {
    pub(crate) below: S,
    // a table of fixed size: the memo takes no memory of its own
    pub(crate) entries: [Option<Entry>; 64],
    pub ghost sound: { SoundMemo S.Store.keeping (S.Store.meaning below) entries } by { SoundMemo-prop S.Store.keeping (S.Store.meaning below) entries },
}

impl<S: Store> Memo<S> {
    /// A memo over a store, with nothing remembered.
    pub fn new(below: S) -> Memo<S>
        ensures below { result.below ≡ below }
        ensures nothing { result.entries ≡ replicate 64 None }
    {
        // What holds of every store is told by its length.
        let _ = below.length();
        Memo {
            below,
            entries: [None; 64],
        }
    }

    /// The store below, for reading.
    pub fn below(&self) -> &S
        ensures { result.now ≡ self.now.below }
    {
        &self.below
    }

    // The answer of a call, if it is remembered.
    #[inline(always)]
    fn recall(&self, call: Call) -> Option<usize>
        ensures { Recalled self.now.entries call result }
    {
        let entry = self.entries[place(call)]?;
        (entry.call == call).then_some(entry.answer)
    }

    // Answers a call by what is remembered of it, or else by the store below, and then remembers the answer in the
    // place of what was remembered there. Inlined, as `recall` and `place`: each method names the kind of its call, so it
    // looks at that kind alone.
    #[inline(always)]
    pub(crate) fn answer(&mut self, call: Call) -> Result<usize, StoreFault>
        ensures asks { Asks S.Store.keeping (S.Store.meaning self.old.below) call result (S.Store.meaning self.new.below) }
        ensures memo { Memoized S.Store.keeping (S.Store.meaning self.old.below) call self.old.below self.old.entries result (S.Store.meaning self.new.below) self.new.below self.new.entries }
    {
        if let Some(h) = self.recall(call) {
            return Ok(h);
        }
        let h = call.ask(&mut self.below)?;
        let length = self.below.length();
        self.entries[place(call)] = Some(Entry {
            call,
            answer: h,
            length,
        });
        Ok(h)
    }
}

// Forgets each call that ended with a longer list than k. It takes the entries alone: between the cut of the list below
// and this the memo's fact does not hold.
pub(crate) fn forget(entries: &mut [Option<Entry>], k: usize)
    ensures { Forgets k entries.old entries.new }
{
    for entry in entries {
        if entry.is_some_and(|entry| entry.length > k) {
            *entry = None;
        }
    }
}
