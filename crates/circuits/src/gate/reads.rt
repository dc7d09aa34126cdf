//! Which stems a gate reads.
ghost use Rattle.std.specs.Prelude.{◌≡◌};
ghost use Rattle.circuits.specs.Circuits.{pins_of};
ghost use Rattle.circuits.specs.Legality.{pins_read};

use crate::gate::Gate;

impl Gate {
    // Whether each pin reads one of the first `stems` stems.
    pub(crate) fn reads_below(&self, stems: usize) -> bool
        ensures { result ≡ pins_read stems (pins_of self.now) }
    {
        self.pins.as_slice().iter().all(|pin| pin.stem < stems)
    }
}
