//! The two texts of a design: the netlist and the specification, read record by record.
#![tactic(auto)]

mod add;
mod fault;
mod field;
mod group;
mod netlist;
mod read;
mod record;
mod records;
mod shape;
mod specification;
mod word;

pub use fault::{Cause, ReadFault, Text, TextFault};
pub use read::Reader;
