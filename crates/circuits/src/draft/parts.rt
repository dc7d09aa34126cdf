//! What a draft is made from, and what it takes.
ghost use Rattle.std.specs.Prelude.{◌≡◌, true, length, IfOk};
ghost use Rattle.circuits.specs.Circuits.{net, name_bytes};
ghost use Rattle.circuits.specs.Drafts.{no_parts, with_input, with_gate, with_output, with_row, input_fault, gate_fault, output_fault, row_fault, whole_fault, Unless};
ghost use Rattle.circuits.specs.Legality.{drafted, legal, position, stem_names, output_names};

use crate::circuit::Circuit;
use crate::design::Design;
use crate::draft::Draft;
use crate::fault::PartFault;
use crate::gate::{Gate, Output};
use crate::name::Name;
use crate::row::SpecRow;
use std::alloc::{AllocError, Global};
use std::mem;

impl Draft {
    /// A draft with nothing in it, and room for all that a design may have.
    pub fn new(heap: Global) -> Result<Draft, AllocError>
        ensures { IfOk result (λ d. d ≡ no_parts) }
    {
        let inputs = Vec::with_capacity(heap, 12)?;
        let gates = Vec::with_capacity(heap, 64)?;
        let outputs = Vec::with_capacity(heap, 16)?;
        let rows = Vec::with_capacity(heap, 256)?;
        let circuit = Circuit {
            inputs,
            gates,
            outputs,
        };
        Ok(Draft { circuit, rows })
    }

    /// Takes everything out.
    pub fn clear(&mut self)
        ensures { self.new ≡ no_parts }
    {
        self.circuit.inputs.clear();
        self.circuit.gates.clear();
        self.circuit.outputs.clear();
        self.rows.clear();
    }

    /// How many inputs there are.
    pub fn inputs(&self) -> usize
        ensures { result ≡ length self.now.circuit.inputs }
    {
        self.circuit.inputs.len()
    }

    /// How many gates there are.
    pub fn gates(&self) -> usize
        ensures { result ≡ length self.now.circuit.gates }
    {
        self.circuit.gates.len()
    }

    /// How many outputs there are.
    pub fn outputs(&self) -> usize
        ensures { result ≡ length self.now.circuit.outputs }
    {
        self.circuit.outputs.len()
    }

    /// How many rows there are. What was read keeps every rule.
    pub fn rows(&self) -> usize
        ensures value { result ≡ length self.now.rows }
        ensures lawful { drafted self.now.circuit self.now.rows ≡ true }
    {
        self.rows.len()
    }

    // The circuit so far.
    pub(crate) fn circuit(&self) -> &Circuit
        ensures { net result.now ≡ self.now.circuit }
    {
        &self.circuit
    }

    // The rows so far.
    pub(crate) fn row_list(&self) -> &[SpecRow]
        ensures { result.now ≡ self.now.rows }
    {
        self.rows.as_slice()
    }

    /// The number of the stem of this name, if there is one.
    pub fn stem(&self, name: &Name) -> Option<usize>
        ensures { result ≡ position 0 (name_bytes name.now) (stem_names self.now.circuit) }
    {
        self.circuit.find_stem(name)
    }

    /// The number of the output of this name, if there is one.
    pub fn output(&self, name: &Name) -> Option<usize>
        ensures { result ≡ position 0 (name_bytes name.now) (output_names self.now.circuit) }
    {
        self.circuit.find_output(name)
    }

    /// Adds an input. It is refused after any other part, past the twelfth, and where its name is taken.
    pub fn add_input(&mut self, name: Name) -> Result<(), PartFault>
        ensures added { Unless (input_fault self.old name) (self.new ≡ with_input self.old name) (self.new ≡ self.old) result }
        ensures lawful { drafted self.new.circuit self.new.rows ≡ true }
    {
        if !self.circuit.gates.is_empty()
            || !self.circuit.outputs.is_empty()
            || !self.rows.is_empty()
        {
            return Err(PartFault::Order);
        }
        if self.circuit.inputs.len() >= 12 {
            return Err(PartFault::Limit);
        }
        if self.circuit.find_stem(&name).is_some() {
            return Err(PartFault::Naming);
        }
        self.circuit.inputs.push_reserved(name);
        Ok(())
    }

    /// Adds a gate. It is refused after an output or a row, past the 64th, where its name is taken or a pin reads
    /// a stem that does not stand, and where the number of its pins does not fit its kind.
    pub fn add_gate(&mut self, gate: Gate) -> Result<(), PartFault>
        ensures added { Unless (gate_fault self.old gate) (self.new ≡ with_gate self.old gate) (self.new ≡ self.old) result }
        ensures lawful { drafted self.new.circuit self.new.rows ≡ true }
    {
        if !self.circuit.outputs.is_empty() || !self.rows.is_empty() {
            return Err(PartFault::Order);
        }
        if self.circuit.gates.len() >= 64 {
            return Err(PartFault::Limit);
        }
        if self.circuit.find_stem(&gate.name).is_some() || !gate.reads_below(self.circuit.stems()) {
            return Err(PartFault::Naming);
        }
        if !gate.kind.takes(gate.pins.as_slice().len()) {
            return Err(PartFault::PinCount);
        }
        self.circuit.gates.push_reserved(gate);
        Ok(())
    }

    /// Adds an output. It is refused after a row, past the sixteenth, and where its name is taken or it reads a
    /// stem that does not stand.
    pub fn add_output(&mut self, output: Output) -> Result<(), PartFault>
        ensures added { Unless (output_fault self.old output) (self.new ≡ with_output self.old output) (self.new ≡ self.old) result }
        ensures lawful { drafted self.new.circuit self.new.rows ≡ true }
    {
        if !self.rows.is_empty() {
            return Err(PartFault::Order);
        }
        if self.circuit.outputs.len() >= 16 {
            return Err(PartFault::Limit);
        }
        if self.circuit.find_output(&output.name).is_some()
            || output.pin.stem >= self.circuit.stems()
        {
            return Err(PartFault::Naming);
        }
        self.circuit.outputs.push_reserved(output);
        Ok(())
    }

    /// Adds a row. It is refused past the 256th, where there is no such output, where its pattern has not one
    /// literal for each input, and where it contradicts an earlier row.
    pub fn add_row(&mut self, row: SpecRow) -> Result<(), PartFault>
        ensures added { Unless (row_fault self.old row) (self.new ≡ with_row self.old row) (self.new ≡ self.old) result }
        ensures lawful { drafted self.new.circuit self.new.rows ≡ true }
    {
        if self.rows.len() >= 256 {
            return Err(PartFault::Limit);
        }
        if row.output >= self.circuit.outputs.len() {
            return Err(PartFault::Naming);
        }
        if row.pattern.as_slice().len() != self.circuit.inputs.len() {
            return Err(PartFault::Literals);
        }
        if !row.agrees_with(self.rows.as_slice()) {
            return Err(PartFault::Contradiction);
        }
        self.rows.push_reserved(row);
        Ok(())
    }

    /// Hands the design over and takes what was there in exchange. It is refused where there is no input or no output.
    pub fn complete(&mut self, design: &mut Design) -> Result<(), PartFault>
        ensures exchanged { Unless (whole_fault self.old) ((design.new ≡ self.old) × (self.new ≡ design.old)) ((design.new ≡ design.old) × (self.new ≡ self.old)) result }
        ensures lawful { drafted self.new.circuit self.new.rows ≡ true }
        ensures whole { legal design.new.circuit design.new.rows ≡ true }
    {
        // A use of the design, by which the proof knows its rules.
        let _ = &design.draft;
        if self.circuit.inputs.is_empty() || self.circuit.outputs.is_empty() {
            return Err(PartFault::Limit);
        }
        mem::swap(self, &mut design.draft);
        Ok(())
    }
}
