//! The report on a netlist and its specification.
ghost use Rattle.std.specs.Prelude.{IfOk, string_bytes};
ghost use Rattle.rectify.specs.Report.{Reported};

use crate::rows::{job_row, stop_row};
use circuits::Design;
use std::alloc::{AllocError, Global};
use texts::Reader;

/// The report: the row of the design that the two texts write, or the row of the fault.
// two texts, as in `Reader::read`
pub fn report(heap: Global, netlist: &[u8], specification: &[u8]) -> Result<String, AllocError>
    ensures { IfOk result (λ s. Reported netlist.now specification.now (string_bytes s)) }
{
    let mut reader = Reader::new(heap)?;
    let mut design = Design::new(heap)?;
    match reader.read(netlist, specification, &mut design) {
        Ok(()) => job_row(heap, &design),
        Err(fault) => stop_row(heap, fault),
    }
}
