//! The lines of a design's circuit, by their numbers.
ghost use Rattle.std.specs.Prelude.{◌≡◌, ℕ, ◌^◌, ◌<◌, true, length, is_some, Some, nat_lt};
ghost use Rattle.circuits.specs.declared.place.Place.{Place};
ghost use Rattle.circuits.specs.Legality.{legal};
ghost use Rattle.circuits.specs.Lines.{pin_count, line_count, line_of, place_of};

use crate::counts::Counts;
use crate::design::Design;
use crate::gate::Gate;
use crate::place::Place;

// How many pins the gates have together.
fn count_pins(gates: &[Gate]) -> usize
    requires { pin_count gates.now < 2 ^ 64 }
    ensures { result ≡ pin_count gates.now }
{
    gates.iter().map(|gate| gate.pins.as_slice().len()).sum()
}

impl Design {
    /// How many inputs, gates and outputs there are. The design keeps every rule.
    pub fn counts(&self) -> Counts
        ensures value { result ≡ record { inputs = length self.now.circuit.inputs; gates = length self.now.circuit.gates; outputs = length self.now.circuit.outputs } }
        ensures lawful { legal self.now.circuit self.now.rows ≡ true }
    {
        let inputs = self.draft.inputs();
        let gates = self.draft.gates();
        let outputs = self.draft.outputs();
        Counts {
            inputs,
            gates,
            outputs,
        }
    }

    /// The place of a line, or none past the last line.
    pub fn place(&self, line: usize) -> Option<Place>
        ensures value { result ≡ place_of self.now.circuit line }
        ensures exists { is_some result ≡ nat_lt line (line_count self.now.circuit) }
        ensures back { (p : Place) → result ≡ Some p → line_of self.now.circuit p ≡ Some line }
    {
        let circuit = self.draft.circuit();
        let stems = circuit.stems();
        if line < stems {
            return Some(Place::Stem(line));
        }
        let mut left = line - stems;
        for (number, gate) in circuit.gates.iter().enumerate() {
            let pins = gate.pins.as_slice().len();
            if left < pins {
                return Some(Place::Pin {
                    gate: number,
                    position: left,
                });
            }
            left -= pins;
        }
        None
    }

    /// The number of the line at a place, or none where there is no such stem or pin.
    pub fn line(&self, place: Place) -> Option<usize>
        ensures value { result ≡ line_of self.now.circuit place }
        ensures back { (l : ℕ) → result ≡ Some l → place_of self.now.circuit l ≡ Some place }
    {
        match place {
            Place::Stem(stem) => (stem < self.draft.circuit().stems()).then_some(stem),
            Place::Pin { gate, position } => self.pin_line(gate, position),
        }
    }

    // The number of the line at a position of a gate. `Place::Pin` is the struct of the two, taken apart by the caller.
    fn pin_line(&self, gate: usize, position: usize) -> Option<usize>
        ensures { result ≡ line_of self.now.circuit (Place.Pin gate position) }
    {
        self.pin(gate, position)?;
        let circuit = self.draft.circuit();
        let before = count_pins(&circuit.gates[..gate]);
        Some(circuit.stems() + before + position)
    }
}
