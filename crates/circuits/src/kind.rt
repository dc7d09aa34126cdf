//! The kinds of gate, and what each gives for the bits of its pins.
ghost use Rattle.std.specs.Prelude.{◌≡◌, Bool, true, List, length};
ghost use Rattle.circuits.specs.Kinds.{fits, gate_bit, ones};

/// What a gate makes of the bits that its pins receive.
#[derive(Clone, Copy, Debug, PartialEq, Eq)]
pub enum Kind {
    And,
    Nand,
    Or,
    Nor,
    Xor,
    Xnor,
    Buf,
    Not,
}

impl Kind {
    // Whether a gate of this kind may have this many pins.
    pub(crate) fn takes(self, pins: usize) -> bool
        ensures { result ≡ fits self pins }
    {
        match self {
            Kind::Buf | Kind::Not => pins == 1,
            _ => (2..=4).contains(&pins),
        }
    }

    // The bit of a gate that has `pins` pins, `count` of which receive 1.
    pub(crate) fn bit(self, count: usize, pins: usize) -> bool
        ensures { (bits : List Bool) → length bits ≡ pins → ones bits ≡ count → fits self pins ≡ true → result ≡ gate_bit self bits }
    {
        match self {
            Kind::And => count == pins,
            Kind::Nand => count != pins,
            Kind::Or | Kind::Buf => count > 0,
            Kind::Nor | Kind::Not => count == 0,
            Kind::Xor => count % 2 == 1,
            Kind::Xnor => count % 2 == 0,
        }
    }
}
