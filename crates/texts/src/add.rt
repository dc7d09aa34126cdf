//! The parts that records name, looked up in a draft and added to it.
ghost use Rattle.std.specs.Prelude.{◌≡◌, [], ◌∷◌, ◌++◌, length, MatchResult};
ghost use Rattle.circuits.specs.Circuits.{name_bytes, pin_list};
ghost use Rattle.circuits.specs.Drafts.{with_input};
ghost use Rattle.texts.specs.Adding.{Settled, Reached, pin_named, pins_named, PinsRead, input_cause, gate_cause, GateAdded, output_cause, OutputAdded, RowAdded, RowRefused};
ghost use Rattle.texts.specs.Records.{fields};

use crate::fault::Cause;
use crate::field::{marked, pattern_of, value_of};
use crate::group::Group;
use circuits::{Draft, Gate, Kind, Name, Output, Pin, Pins, SpecRow};

// The pin that the field writes, if its stem is known.
fn read_pin(draft: &Draft, field: &[u8]) -> Option<Pin>
    ensures { result ≡ pin_named draft.now field.now }
{
    let (mark, name) = marked(field);
    let name = Name::new(name)?;
    let stem = draft.stem(&name)?;
    Some(Pin { stem, mark })
}

// The pins and one more. It is refused where there are four.
fn with_pin(mut pins: Pins, pin: Pin) -> Result<Pins, Cause>
    ensures { MatchResult result (λ p. pin_list p ≡ pin_list pins ++ pin ∷ []) (λ c. (length (pin_list pins) ≡ 4) × (c ≡ Cause.PinCount)) }
{
    pins.push(pin).map_err(|_| Cause::PinCount)?;
    Ok(pins)
}

// The pins that these fields write. It is refused where a stem is not known, and then where there are more than four.
fn read_pins(draft: &Draft, pins: &[u8]) -> Result<Pins, Cause>
    ensures { PinsRead (pins_named draft.now (fields pins.now)) result }
{
    let mut read = Ok(Pins::none());
    for field in pins.split(|b| *b == b',') {
        let pin = read_pin(draft, field).ok_or(Cause::Naming)?;
        read = read.and_then(|pins| with_pin(pins, pin));
    }
    read
}

// Adds an input.
// This and the next two ask for what is reached: a struct of a lent draft and its group would have to say in each method
// that the draft is still the same one.
pub(crate) fn add_input(draft: &mut Draft, name: Name) -> Result<(), Cause>
    requires { Reached Group.Inputs draft.old }
    ensures { Settled (input_cause draft.old (name_bytes name)) (draft.new ≡ with_input draft.old name) (draft.new ≡ draft.old) result }
{
    draft.add_input(name)?;
    Ok(())
}

// Adds a gate whose pins are read from these fields. The draft asks for its limit too, but a limit comes before the names
// of pins, here and below.
pub(crate) fn add_gate(draft: &mut Draft, name: Name, kind: Kind, pins: &[u8]) -> Result<(), Cause>
    requires { Reached Group.Gates draft.old }
    ensures { Settled (gate_cause draft.old (name_bytes name) kind (fields pins.now)) (GateAdded draft.old name kind (fields pins.now) draft.new) (draft.new ≡ draft.old) result }
{
    if draft.gates() >= 64 {
        return Err(Cause::Limit);
    }
    if draft.stem(&name).is_some() {
        return Err(Cause::Naming);
    }
    let pins = read_pins(draft, pins)?;
    draft.add_gate(Gate { name, kind, pins })?;
    Ok(())
}

// Adds an output that reads the stem of this name, through an inversion where it is marked: both are always there.
pub(crate) fn add_output(
    draft: &mut Draft,
    name: Name,
    mark: bool,
    stem: &Name,
) -> Result<(), Cause>
    requires { Reached Group.Outputs draft.old }
    ensures { Settled (output_cause draft.old (name_bytes name) (name_bytes stem.now)) (OutputAdded draft.old name mark (name_bytes stem.now) draft.new) (draft.new ≡ draft.old) result }
{
    if draft.outputs() >= 16 {
        return Err(Cause::Limit);
    }
    let stem = draft.stem(stem).ok_or(Cause::Naming)?;
    draft.add_output(Output {
        name,
        pin: Pin { stem, mark },
    })?;
    Ok(())
}

// Adds the row that the name of its output, its pattern and its value write.
pub(crate) fn add_row(
    draft: &mut Draft,
    output: &Name,
    pattern: &[u8],
    value: &[u8],
) -> Result<(), Cause>
    ensures { MatchResult result (λ _. RowAdded draft.old (name_bytes output.now) pattern.now value.now draft.new) (λ c. RowRefused draft.old (name_bytes output.now) pattern.now value.now c × (draft.new ≡ draft.old)) }
{
    if draft.rows() >= 256 {
        return Err(Cause::Limit);
    }
    let output = draft.output(output).ok_or(Cause::Naming)?;
    let pattern = pattern_of(pattern).ok_or(Cause::Literals)?;
    let value = value_of(value).ok_or(Cause::Literals)?;
    draft.add_row(SpecRow {
        output,
        pattern,
        value,
    })?;
    Ok(())
}
