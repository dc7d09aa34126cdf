//! The netlist, record by record.
ghost use Rattle.std.specs.Prelude.{◌≡◌, IfOk, if◌then◌else◌, Some, None, MatchResult};
ghost use Rattle.circuits.specs.Drafts.{no_parts, whole_fault};
ghost use Rattle.circuits.specs.declared.fault.PartFault.TheVariants.{Limit};
ghost use Rattle.texts.specs.Adding.{Reached};
ghost use Rattle.texts.specs.Netlist.{Taken, NetlistRead, NetlistRefused};
ghost use Rattle.texts.specs.Shapes.{shaped_kind};

use crate::add::{add_gate, add_input, add_output};
use crate::fault::{Cause, Text, TextFault};
use crate::group::{Group, RecordKind, next_group};
use crate::records::Records;
use crate::shape::{Shaped, netlist_shape};
use circuits::Draft;

// What the record declares. No `From`: this is its only use, and a name says more here.
fn kind_of_record(shaped: &Shaped) -> RecordKind
    ensures { result ≡ shaped_kind shaped.now }
{
    match shaped {
        Shaped::Input { .. } => RecordKind::Input,
        Shaped::Gate { .. } => RecordKind::Gate,
        Shaped::Output { .. } => RecordKind::Output,
    }
}

// Takes one record, without its line feed, and tells the group that is reached with it. It asks for what is reached as
// `add_input` does.
fn take_record(draft: &mut Draft, group: Group, record: &[u8]) -> Result<Group, Cause>
    requires { Reached group draft.old }
    ensures exact { Taken draft.old group «record».now result draft.new }
    ensures onward { IfOk result (λ g. Reached g draft.new) }
{
    let shaped = netlist_shape(record).ok_or(Cause::Shape)?;
    let next = next_group(group, kind_of_record(&shaped))?;
    match shaped {
        Shaped::Input { name } => add_input(draft, name)?,
        Shaped::Gate { name, kind, pins } => add_gate(draft, name, kind, pins)?,
        Shaped::Output { name, mark, stem } => add_output(draft, name, mark, &stem)?,
    }
    Ok(next)
}

// Whether there is an input and an output.
fn is_whole(draft: &Draft) -> bool
    ensures { whole_fault draft.now ≡ (if result then None else Some Limit) }
{
    draft.inputs() != 0 && draft.outputs() != 0
}

// Reads the netlist into an empty draft.
pub(crate) fn read_netlist(draft: &mut Draft, netlist: &[u8]) -> Result<(), TextFault>
    requires { draft.old ≡ no_parts }
    ensures { MatchResult result (λ _. NetlistRead netlist.now draft.new) (λ f. NetlistRefused netlist.now f) }
{
    let mut group = Group::Inputs;
    let mut records = Records::new(netlist);
    // No `for`: after one over `by_ref()` a proof has no name for the iterator, of which the rest is asked.
    while let Some((spot, record)) = records.next() {
        let taken = take_record(draft, group, record);
        group = taken.map_err(|cause| spot.fault(Text::Netlist, cause))?;
    }
    let rest = records.rest();
    if rest.length != 0 {
        return Err(rest.fault(Text::Netlist, Cause::Shape));
    }
    if !is_whole(draft) {
        return Err(rest.fault(Text::Netlist, Cause::Limit));
    }
    Ok(())
}
