//! The rows of the report.
ghost use Rattle.std.specs.Prelude.{◌≡◌, IfOk, string_bytes};
ghost use Rattle.rectify.specs.Rows.{job_row_bytes, stop_row_bytes};

use circuits::{Counts, Design};
use std::alloc::{AllocError, Global};
use texts::{ReadFault, TextFault};

/// The row of a design: how many inputs, gates and outputs it has, and how many outputs do not meet their rows.
pub fn job_row(heap: Global, design: &Design) -> Result<String, AllocError>
    ensures { IfOk result (λ s. string_bytes s ≡ job_row_bytes design.now) }
{
    let Counts {
        inputs,
        gates,
        outputs,
    } = design.counts();
    let misses = design.misses();
    format!(in heap; "job,{inputs},{gates},{outputs},{misses}\n")
}

/// The row of a fault: its number, its text, and the number, place and length of the record.
pub fn stop_row(heap: Global, fault: ReadFault) -> Result<String, AllocError>
    ensures { IfOk result (λ s. string_bytes s ≡ stop_row_bytes fault) }
{
    let ReadFault::Text(
        TextFault {
            cause,
            text,
            record,
            place,
            length,
        },
    ) = fault;
    let number = cause.number();
    format!(in heap; "stop,{number},{text},{record},{place},{length}\n")
}
