//! A design that is being read, part by part.
mod parts;

use crate::circuit::Circuit;
use crate::row::SpecRow;
use std::marker::Model;

/// A design that is being read: it keeps every rule, but may lack an input or an output still.
#[derive(Drop)]
pub struct Draft {
    circuit: Circuit,
    rows: Vec<SpecRow>,
}

impl Model for Draft {
    ghost use Rattle.circuits.specs.Drafts.{Parts, parts, DraftKeeps};

    ghost Value = { Parts };

    ghost view = { λ d. parts d.circuit d.rows };

    ghost invariant = { λ d. DraftKeeps d.circuit d.rows };
}
