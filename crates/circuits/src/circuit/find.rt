//! Stems and outputs by their names.
ghost use Rattle.std.specs.Prelude.{◌≡◌};
ghost use Rattle.circuits.specs.Circuits.{net, name_bytes};
ghost use Rattle.circuits.specs.Legality.{position, stem_names, output_names};
ghost use Rattle.circuits.specs.Lines.{stem_count};

use crate::circuit::Circuit;
use crate::name::Name;

impl Circuit {
    // How many stems there are.
    pub(crate) fn stems(&self) -> usize
        ensures { result ≡ stem_count (net self.now) }
    {
        self.inputs.len() + self.gates.len()
    }

    // The number of the stem of this name, if there is one.
    pub(crate) fn find_stem(&self, name: &Name) -> Option<usize>
        ensures { result ≡ position 0 (name_bytes name.now) (stem_names (net self.now)) }
    {
        self.inputs
            .iter()
            .chain(self.gates.iter().map(|gate| &gate.name))
            .position(|taken| name == taken)
    }

    // The number of the output of this name, if there is one.
    pub(crate) fn find_output(&self, name: &Name) -> Option<usize>
        ensures { result ≡ position 0 (name_bytes name.now) (output_names (net self.now)) }
    {
        self.outputs.iter().position(|output| *name == output.name)
    }
}
