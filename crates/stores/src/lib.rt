//! Function stores: what they mean, as a trait, and stores with that meaning.
#![tactic(auto)]

mod call;
mod fault;
mod operation;
mod store;
mod voting;
mod words;

pub use call::Call;
pub use fault::StoreFault;
pub use operation::Operation;
pub use store::Store;
pub use voting::majority;
pub use words::Words;
