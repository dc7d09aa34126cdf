//! Reading a design from its two texts.
ghost use Rattle.std.specs.Prelude.{◌≡◌, ◌<◌, ◌≤◌, true, length, IfOk, IfErr, MatchResult, OnOk};
ghost use Rattle.circuits.specs.Drafts.{no_parts};
ghost use Rattle.circuits.specs.Legality.{legal};
ghost use Rattle.texts.specs.Reading.{most, too_long, Accepted, Refused, Told};
ghost use Rattle.texts.specs.Writing.{Writes};

use crate::fault::{Cause, ReadFault, Text, TextFault};
use crate::netlist::read_netlist;
use crate::specification::read_specification;
use circuits::{Design, Draft};
use std::alloc::{AllocError, Global};

/// Reads designs, one after the other, in memory that it keeps.
#[derive(Drop)]
pub struct Reader {
    draft: Draft,
}

// A text may have at most 8,192 bytes.
fn check_length(bytes: &[u8], text: Text) -> Result<(), TextFault>
    ensures { MatchResult result (λ _. length bytes.now ≤ most) (λ f. (most < length bytes.now) × (f ≡ too_long text)) }
{
    if bytes.len() > 8192 {
        return Err(TextFault {
            cause: Cause::TooLong,
            text,
            record: 0,
            place: 0,
            length: 0,
        });
    }
    Ok(())
}

impl Reader {
    /// A reader with room for all that a design may have.
    pub fn new(heap: Global) -> Result<Reader, AllocError>
        ensures { IfOk result (λ x. x.draft ≡ no_parts) }
    {
        let draft = Draft::new(heap)?;
        Ok(Reader { draft })
    }

    /// Reads the netlist and then the specification, and fills the design. The first record that breaks a rule is
    /// refused with the first rule that it breaks, and then the design stays as it was.
    // The texts stay two parameters: a struct of both would be made at each call only to be taken apart in each clause.
    pub fn read(
        &mut self,
        netlist: &[u8],
        specification: &[u8],
        design: &mut Design,
    ) -> Result<(), ReadFault>
        ensures exact { MatchResult result (λ _. Accepted netlist.now specification.now design.new) (λ f. Refused netlist.now specification.now f × (design.new ≡ design.old)) }
        ensures writing { OnOk result (Writes netlist.now specification.now design.new) }
        ensures told { IfErr result (λ f. Told netlist.now specification.now f) }
        ensures lawful { legal design.new.circuit design.new.rows ≡ true }
    {
        // What holds of every design is told by its counts.
        let _ = design.counts();
        check_length(netlist, Text::Netlist)?;
        self.draft.clear();
        read_netlist(&mut self.draft, netlist)?;
        check_length(specification, Text::Specification)?;
        read_specification(&mut self.draft, specification)?;
        // What was read has an input and an output.
        self.draft.complete(design).unwrap();
        Ok(())
    }
}
