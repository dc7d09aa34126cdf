//! Circuits of gates, their lines, and the rows that their outputs have to meet.
#![tactic(auto)]

mod circuit;
mod counts;
mod design;
mod draft;
mod fault;
mod gate;
mod kind;
mod literal;
mod name;
mod pin;
mod place;
mod row;
mod short;

pub use circuit::Circuit;
pub use counts::Counts;
pub use design::Design;
pub use draft::Draft;
pub use fault::PartFault;
pub use gate::{Gate, Output, Pins};
pub use kind::Kind;
pub use literal::Literal;
pub use name::Name;
pub use pin::Pin;
pub use place::Place;
pub use row::{Pattern, SpecRow};
pub use short::{Blank, Full, Short};
