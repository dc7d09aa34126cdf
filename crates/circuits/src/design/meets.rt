//! Which outputs of a design meet their rows.
ghost use Rattle.std.specs.Prelude.{◌≡◌, ◌<◌, true, false, not, ◌↔◌, Some};
ghost use Rattle.std.specs.Option.{option_map, unwrap_or};
ghost use Rattle.std.specs.List.{slice_get};
ghost use Rattle.circuits.specs.declared.gate.Output.{Output};
ghost use Rattle.circuits.specs.Circuits.{carried, through};
ghost use Rattle.circuits.specs.Lines.{stem_count};
ghost use Rattle.circuits.specs.Specification.{bound, obeys, meets, misses, Obeyed, Repaired};

use crate::design::Design;
use crate::pin::Pin;
use crate::row::bound_value;

impl Design {
    // Whether an output that is read through this pin has its bound value at an assignment. Output and assignment are no
    // struct, here and where rows are asked: one output is asked at all assignments in turn.
    fn obeys_at(&self, pin: Pin, output: usize, assignment: usize) -> bool
        requires { pin.stem < stem_count self.now.circuit }
        ensures { result ≡ obeys (bound self.now.rows output assignment) (through pin (carried self.now.circuit assignment)) }
    {
        let bound = bound_value(self.draft.row_list(), output, assignment);
        bound.is_none_or(|value| value == pin.get(self.stem_bits(assignment).as_slice()))
    }

    /// Whether an output has its bound value wherever it is bound. None where there is no such output.
    pub fn meets(&self, output: usize) -> Option<bool>
        ensures rows { (x : Output) → slice_get self.now.circuit.outputs output ≡ Some x → (result ≡ Some true) ↔ Obeyed self.now.circuit self.now.rows output x }
        ensures value { result ≡ option_map (meets self.now.circuit self.now.rows output) (slice_get self.now.circuit.outputs output) }
    {
        // A use of the draft, by which the proof knows its rules.
        let _ = &self.draft;
        let pin = self.output_pin(output)?;
        Some((0..self.assignments()).all(|assignment| self.obeys_at(pin, output, assignment)))
    }

    // Whether there is such an output and it does not meet its rows.
    fn is_missed(&self, output: usize) -> bool
        ensures { result ≡ unwrap_or (option_map (λ x. not (meets self.now.circuit self.now.rows output x)) (slice_get self.now.circuit.outputs output)) false }
    {
        self.meets(output) == Some(false)
    }

    /// How many outputs do not meet their rows. None does where what each line carries repairs it, and only there.
    pub fn misses(&self) -> usize
        ensures repaired { (result ≡ 0) ↔ Repaired self.now.circuit self.now.rows }
        ensures value { result ≡ misses self.now.circuit self.now.rows }
    {
        (0..self.draft.outputs())
            .filter(|output| self.is_missed(*output))
            .count()
    }
}
