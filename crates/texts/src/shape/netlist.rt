//! The records of a netlist.
ghost use Rattle.std.specs.Prelude.{◌≡◌, ◌∷◌, codes};
ghost use Rattle.texts.specs.Records.{fields};
ghost use Rattle.texts.specs.Shapes.{is_pin, all_pins, Apart};

use crate::field::{kind_of, marked};
use crate::record::{only_field, split_once};
use crate::shape::Shaped;
use circuits::Name;

// Whether the field is a name after at most one mark.
fn pin_shaped(field: &[u8]) -> bool
    ensures { result ≡ is_pin field.now }
{
    let (_, name) = marked(field);
    Name::new(name).is_some()
}

// Whether each of the fields is a name after at most one mark.
fn pins_shaped(pins: &[u8]) -> bool
    ensures { result ≡ all_pins (fields pins.now) }
{
    pins.split(|b| *b == b',').all(pin_shaped)
}

// What follows `in,`.
fn input_shape(record: &[u8]) -> Option<Shaped<'_>>
    ensures { Apart (codes "in" ∷ fields «record».now) result }
{
    let name = Name::new(only_field(record)?)?;
    Some(Shaped::Input { name })
}

// What follows `gate,`.
#[tactic(auto, using(crate::proofs::Splits::some_field))]
fn gate_shape(record: &[u8]) -> Option<Shaped<'_>>
    ensures { Apart (codes "gate" ∷ fields «record».now) result }
{
    let (name, rest) = split_once(record)?;
    let (kind, pins) = split_once(rest)?;
    let name = Name::new(name)?;
    let kind = kind_of(kind)?;
    if !pins_shaped(pins) {
        return None;
    }
    Some(Shaped::Gate { name, kind, pins })
}

// What follows `out,`.
fn output_shape(record: &[u8]) -> Option<Shaped<'_>>
    ensures { Apart (codes "out" ∷ fields «record».now) result }
{
    let (name, rest) = split_once(record)?;
    let (mark, stem) = marked(only_field(rest)?);
    let name = Name::new(name)?;
    let stem = Name::new(stem)?;
    Some(Shaped::Output { name, mark, stem })
}

// The record of a netlist, if it has the shape of one.
pub(crate) fn netlist_shape(record: &[u8]) -> Option<Shaped<'_>>
    ensures { Apart (fields «record».now) result }
{
    let (word, rest) = split_once(record)?;
    match word {
        b"in" => input_shape(rest),
        b"gate" => gate_shape(rest),
        b"out" => output_shape(rest),
        _ => None,
    }
}
