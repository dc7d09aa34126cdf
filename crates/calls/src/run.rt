//! Asking a store.
ghost use Rattle.calls.specs.Calls.{Ran};

use crate::request::Request;
use stores::{Store, StoreFault, majority};

impl Request {
    /// Asks a store. What it answers is told as a number: a handle or a length as it is, a bit as 0 or 1, and 0 where the
    /// store answers nothing.
    // One number for all: it is what a table holds and a program prints.
    pub fn run<S: Store>(self, store: &mut S) -> Result<usize, StoreFault>
        ensures { Ran S.keeping (S.meaning store.old) self result (S.meaning store.new) }
    {
        match self {
            Request::Start(inputs) => store.start(inputs).map(|()| 0),
            Request::Yield(call) => call.ask(store),
            Request::Majority(a, b, c) => majority(store, a, b, c),
            Request::Value(f, e, a) => store.value(f, e, a).map(usize::from),
            Request::Length => Ok(store.length()),
            Request::Release(m) => store.release(m).map(|()| 0),
        }
    }
}
