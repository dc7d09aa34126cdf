//! A circuit with the rows that its outputs have to meet.
mod bits;
mod lines;
mod meets;
mod smallest;

use crate::draft::Draft;
use std::marker::Model;

/// A circuit with its specification: a draft that is whole. None can exist that breaks a rule on circuits, rows or
/// names.
#[derive(Drop)]
pub struct Design {
    pub(crate) draft: Draft,
}

impl Model for Design {
    ghost use Rattle.std.specs.Prelude.{◌≡◌, true};
    ghost use Rattle.circuits.specs.Drafts.{Parts};
    ghost use Rattle.circuits.specs.Legality.{legal};

    ghost Value = { Parts };

    ghost view = { λ d. d.draft };

    ghost invariant = { λ d. legal d.draft.circuit d.draft.rows ≡ true };
}
