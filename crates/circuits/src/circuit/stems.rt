//! The bits of the stems of a circuit at an assignment.
ghost use Rattle.std.specs.Prelude.{◌≡◌, ℕ, ◌<◌, ◌≤◌, true, length};
ghost use Rattle.circuits.specs.Circuits.{net, nothing, pins_of, received, through, carried};
ghost use Rattle.circuits.specs.Kinds.{gate_bit, ones};
ghost use Rattle.circuits.specs.Legality.{pins_read, gate_legal, gates_legal};
ghost use Rattle.circuits.specs.Shorts.{entries};

use crate::circuit::Circuit;
use crate::gate::Gate;
use crate::pin::Pin;
use crate::short::Short;

impl Pin {
    // What the pin gets of the stems, through its mark.
    pub(crate) fn get(self, stems: &[bool]) -> bool
        requires { self.stem < length stems.now }
        ensures { result ≡ through self stems.now }
    {
        self.mark != stems[self.stem]
    }
}

// How many of a gate's pins receive 1.
fn count_ones(pins: &[Pin], stems: &[bool]) -> usize
    requires { pins_read (length stems.now) pins.now ≡ true }
    ensures { (g : ℕ) → result ≡ ones (received nothing g 0 stems.now pins.now) }
{
    pins.iter().map(|pin| usize::from(pin.get(stems))).sum()
}

impl Gate {
    // The bit of the gate, from the stems before it.
    fn work_out(&self, stems: &[bool]) -> bool
        requires { gate_legal (length stems.now) self.now ≡ true }
        ensures { (g : ℕ) → result ≡ gate_bit self.now.kind (received nothing g 0 stems.now (pins_of self.now)) }
    {
        let pins = self.pins.as_slice();
        self.kind.bit(count_ones(pins, stems), pins.len())
    }
}

impl Circuit {
    // The bits of the stems at an assignment, whose highest bit is the first input.
    // It is worked out at each assignment, so it is inlined: the list is not moved from function to function.
    #[inline(always)]
    pub(crate) fn stem_bits(&self, assignment: usize) -> Short<bool, 76>
        requires inputs { length (net self.now).inputs ≤ 12 }
        requires gates { length (net self.now).gates ≤ 64 }
        requires legal { gates_legal (length (net self.now).inputs) (net self.now).gates ≡ true }
        ensures { entries result ≡ carried (net self.now) assignment }
    {
        let mut bits = Short::none();
        // k is the place of a bit in the assignment, and no index of a list
        for k in (0..self.inputs.len()).rev() {
            bits.push((assignment >> k) % 2 == 1).unwrap();
        }
        for gate in &self.gates {
            let bit = gate.work_out(bits.as_slice());
            bits.push(bit).unwrap();
        }
        bits
    }
}
