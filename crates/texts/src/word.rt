//! The record that a fault names, as a part of its text.
ghost use Rattle.std.specs.Prelude.{◌≡◌};
ghost use Rattle.texts.specs.Reading.{text_of, part_at};

use crate::fault::{Text, TextFault};

impl TextFault {
    /// The record that this fault names, without its line feed, as a part of whichever of the two texts the fault names;
    /// the empty beginning of that text where no such record lies inside it.
    // two texts, as in `Reader::read`
    pub fn word<'a>(self, netlist: &'a [u8], specification: &'a [u8]) -> &'a [u8]
        ensures { result.now ≡ part_at (text_of netlist.now specification.now self.text) self.place self.length }
    {
        let text = match self.text {
            Text::Netlist => netlist,
            Text::Specification => specification,
        };
        let place = self.place;
        let length = self.length;
        if place > text.len() || length > text.len() - place {
            return &text[0..0];
        }
        &text[place..place + length]
    }
}
