//! The specification, record by record.
ghost use Rattle.std.specs.Prelude.{Ok, Err, MatchResult};
ghost use Rattle.texts.specs.Specification.{RowStep, SpecificationRead, SpecificationRefused};

use crate::add::add_row;
use crate::fault::{Cause, Text, TextFault};
use crate::records::Records;
use crate::shape::row_shape;
use circuits::{Draft, Name};

// Takes one record, without its line feed.
fn take_row(draft: &mut Draft, record: &[u8]) -> Result<(), Cause>
    ensures { MatchResult result (λ _. RowStep draft.old «record».now (Ok draft.new)) (λ c. RowStep draft.old «record».now (Err c)) }
{
    let row = row_shape(record).ok_or(Cause::Shape)?;
    let output = Name::new(row.output).ok_or(Cause::Shape)?;
    add_row(draft, &output, row.pattern, row.value)
}

// Reads the specification into a draft that has the circuit. What it shares with the reader of a netlist is `Records`;
// the steps and the ends differ.
pub(crate) fn read_specification(draft: &mut Draft, specification: &[u8]) -> Result<(), TextFault>
    ensures { MatchResult result (λ _. SpecificationRead specification.now draft.old draft.new) (λ f. SpecificationRefused specification.now draft.old f) }
{
    let mut records = Records::new(specification);
    // No `for`: after one over `by_ref()` a proof has no name for the iterator, of which the rest is asked.
    while let Some((spot, record)) = records.next() {
        take_row(draft, record).map_err(|cause| spot.fault(Text::Specification, cause))?;
    }
    let rest = records.rest();
    if rest.length != 0 {
        return Err(rest.fault(Text::Specification, Cause::Shape));
    }
    Ok(())
}
