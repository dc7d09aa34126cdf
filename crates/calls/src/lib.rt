//! What a line of a table asks of a store.
#![tactic(auto)]

mod request;
mod run;

pub use request::Request;
