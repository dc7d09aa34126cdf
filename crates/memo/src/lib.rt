//! The memo: a store laid over any other store, which remembers the calls that it answered.
#![tactic(auto)]

mod entry;
mod memo;
mod store;

pub use entry::Entry;
pub use memo::Memo;
// what a memo remembers
pub use stores::Call;
