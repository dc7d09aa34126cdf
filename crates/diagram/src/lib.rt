//! The diagram store: functions as reduced ordered decision diagrams.
#![tactic(auto)]

mod chains;
mod diagram;
mod join;
mod link;
mod row;
mod store;

pub use diagram::Diagram;
pub use row::Row;
