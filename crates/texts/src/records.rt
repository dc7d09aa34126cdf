//! The records of a text, one after the other.
ghost use Rattle.std.specs.Prelude.{◌≡◌, ◌+◌, ◌-◌, ◌≤◌, length};
ghost use Rattle.std.specs.Iterator.{at_most};
ghost use Rattle.texts.specs.Walks.{record_place};

use crate::fault::{Cause, Text, TextFault};
use crate::record::find;

/// Where a record is in its text.
#[derive(Clone, Copy, Debug, PartialEq, Eq)]
pub(crate) struct Spot {
    /// The number of the record, from 1.
    pub(crate) number: usize,
    /// Where the record begins, from 0.
    pub(crate) place: usize,
    /// How many bytes the record has without its line feed.
    pub(crate) length: usize,
}

/// The records of a text that end with a line feed, each with its spot and without its line feed.
#[derive(Drop)]
pub(crate) struct Records<'a> {
    text: &'a [u8],
    earlier: usize,
    place: usize,
    ghost within: { place ≤ length text.now },
    ghost few: { earlier ≤ place },
    ghost here: { place ≡ record_place text.now earlier },
}

impl Spot {
    ghost use Rattle.texts.specs.Nexts.{spot_fault};

    // What is told of the record here where it breaks a rule.
    pub(crate) fn fault(self, text: Text, cause: Cause) -> TextFault
        ensures { result ≡ spot_fault text self cause }
    {
        TextFault {
            cause,
            text,
            record: self.number,
            place: self.place,
            length: self.length,
        }
    }
}

impl<'a> Records<'a> {
    // The records of this text.
    pub(crate) fn new(text: &'a [u8]) -> Records<'a>
        ensures text { result.text.now ≡ text.now }
        ensures earlier { result.earlier ≡ 0 }
    {
        Records {
            text,
            earlier: 0,
            place: 0,
        }
    }

    // Where the rest is that no record was given of: a record that has no line feed, or nothing.
    pub(crate) fn rest(&self) -> Spot
        ensures number { result.number ≡ self.now.earlier + 1 }
        ensures place { result.place ≡ self.now.place }
        ensures length { result.length ≡ length self.now.text.now - self.now.place }
    {
        Spot {
            number: self.earlier + 1,
            place: self.place,
            length: self.text.len() - self.place,
        }
    }
}

impl<'a> Iterator for Records<'a> {
    type Item = (Spot, &'a [u8]);

    ghost use Rattle.texts.specs.Nexts.{NextRecord};

    ghost next_gives = { NextRecord };

    ghost remaining = { λ s. at_most (length s.text.now - s.place) };

    fn next(&mut self) -> Option<(Spot, &'a [u8])> {
        let rest = &self.text[self.place..];
        let length = find(rest, b'\n')?;
        let spot = Spot {
            length,
            ..self.rest()
        };
        self.earlier += 1;
        self.place += length + 1;
        Some((spot, &rest[..length]))
    }
}
