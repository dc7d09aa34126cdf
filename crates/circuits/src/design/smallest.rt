//! The smallest design.
ghost use Rattle.std.specs.Prelude.{◌≡◌, true, IfOk};
ghost use Rattle.circuits.specs.Drafts.{Smallest};
ghost use Rattle.circuits.specs.Legality.{legal};

use crate::design::Design;
use crate::draft::Draft;
use crate::gate::Output;
use crate::name::Name;
use crate::pin::Pin;
use std::alloc::{AllocError, Global};

impl Design {
    /// The smallest design: an input `a`, and an output `a` that reads it. It has room for all that a design may have.
    pub fn new(heap: Global) -> Result<Design, AllocError>
        ensures smallest { IfOk result (λ d. Smallest d) }
        ensures lawful { IfOk result (λ d. legal d.circuit d.rows ≡ true) }
    {
        let mut draft = Draft::new(heap)?;
        let name = Name::new(b"a").unwrap();
        draft.add_input(name).unwrap();
        draft
            .add_output(Output {
                name,
                pin: Pin {
                    stem: 0,
                    mark: false,
                },
            })
            .unwrap();
        Ok(Design { draft })
    }
}
