//! What the lines and the outputs of a design carry at an assignment.
ghost use Rattle.std.specs.Prelude.{◌≡◌, ◌<◌, length, IfSome};
ghost use Rattle.std.specs.Option.{option_map};
ghost use Rattle.std.specs.List.{slice_get};
ghost use Rattle.circuits.specs.declared.gate.Output.{Output};
ghost use Rattle.circuits.specs.Circuits.{assignments, carried};
ghost use Rattle.circuits.specs.Lines.{stem_count, pin_at, line_bit};
ghost use Rattle.circuits.specs.Shorts.{entries};
ghost use Rattle.circuits.specs.Specification.{output_at};

use crate::design::Design;
use crate::pin::Pin;
use crate::place::Place;
use crate::short::Short;

impl Design {
    // How many assignments there are: 2 to the number of inputs.
    pub(super) fn assignments(&self) -> usize
        ensures { result ≡ assignments self.now.circuit }
    {
        1 << self.draft.inputs()
    }

    // The bits of the stems at an assignment, inlined as what it calls.
    #[inline(always)]
    pub(super) fn stem_bits(&self, assignment: usize) -> Short<bool, 76>
        ensures bits { entries result ≡ carried self.now.circuit assignment }
        ensures one_each { length (entries result) ≡ stem_count self.now.circuit }
    {
        self.draft.circuit().stem_bits(assignment)
    }

    // The pin at a position of a gate, if there is one.
    pub(super) fn pin(&self, gate: usize, position: usize) -> Option<Pin>
        ensures value { result ≡ pin_at self.now.circuit.gates gate position }
        ensures reads { IfSome result (λ p. p.stem < stem_count self.now.circuit) }
    {
        self.draft
            .circuit()
            .gates
            .get(gate)?
            .pins
            .as_slice()
            .get(position)
            .copied()
    }

    // The pin of an output, if there is one.
    pub(super) fn output_pin(&self, output: usize) -> Option<Pin>
        ensures value { result ≡ option_map (λ (x : Output). x.pin) (slice_get self.now.circuit.outputs output) }
        ensures reads { IfSome result (λ p. p.stem < stem_count self.now.circuit) }
    {
        self.draft
            .circuit()
            .outputs
            .get(output)
            .map(|output| output.pin)
    }

    /// The bit that a line carries at an assignment: a stem before any mark, a pin what its gate receives.
    /// None where there is no such line or assignment.
    pub fn carry(&self, line: usize, assignment: usize) -> Option<bool>
        ensures { result ≡ line_bit self.now.circuit line assignment }
    {
        if assignment >= self.assignments() {
            return None;
        }
        let bits = self.stem_bits(assignment);
        let stems = bits.as_slice();
        match self.place(line)? {
            Place::Stem(stem) => Some(stems[stem]),
            Place::Pin { gate, position } => Some(self.pin(gate, position)?.get(stems)),
        }
    }

    /// The bit of an output after its mark at an assignment. None where there is no such output or assignment.
    // It begins as `carry` does: a function for that would hand out an `Option` of what the next line takes apart.
    pub fn output(&self, output: usize, assignment: usize) -> Option<bool>
        ensures { result ≡ output_at self.now.circuit output assignment }
    {
        if assignment >= self.assignments() {
            return None;
        }
        let bits = self.stem_bits(assignment);
        let stems = bits.as_slice();
        Some(self.output_pin(output)?.get(stems))
    }
}
