//! Why a text is refused, and where.
ghost use Rattle.std.specs.Prelude.{◌≡◌, Some};
ghost use Rattle.texts.specs.Faults.{cause_number, fault_number, read_number, of_text, cause_of, text_letter};

use circuits::PartFault;
use std::fmt;

/// One of the two texts of a design.
#[derive(Clone, Copy, Debug, PartialEq, Eq)]
pub enum Text {
    Netlist,
    Specification,
}

/// The rule that a text or a record of it breaks.
#[derive(Clone, Copy, Debug, PartialEq, Eq)]
pub enum Cause {
    /// The text has more than 8,192 bytes.
    TooLong,
    /// The kind of record, the number of fields, a name, the kind of gate or the line feed is bad, or a gate has no pin.
    Shape,
    /// A record of a later group came before.
    Order,
    /// A name is taken, or what is named does not exist.
    Naming,
    /// There are as many as there may be, or none where one is needed.
    Limit,
    /// The pins do not fit the kind of gate, or there are more than four.
    PinCount,
    /// The pattern or the value is bad.
    Literals,
    /// An earlier row of the output has the other value at a common assignment.
    Contradiction,
}

/// A record that is refused. Where the whole text is too long, record, place and length are 0.
// No `Option` of the three: 0 is what the rules say of them there, and what is printed.
#[derive(Clone, Copy, Debug, PartialEq, Eq)]
pub struct TextFault {
    pub cause: Cause,
    pub text: Text,
    /// The number of the record in its text, from 1.
    pub record: usize,
    /// Where the record begins in its text, from 0.
    pub place: usize,
    /// How many bytes the record has without its line feed.
    pub length: usize,
}

/// Why reading is refused.
// A rule of the project: a reading has an enum of reasons of its own, into which `?` turns a text's fault.
#[derive(Clone, Copy, Debug, PartialEq, Eq)]
pub enum ReadFault {
    Text(TextFault),
}

/// A text is told by its letter.
impl fmt::Display for Text {
    ghost output = { λ t. Some (text_letter t) };

    fn fmt<W: fmt::Write>(&self, f: &mut fmt::Formatter<W>) -> fmt::Result {
        f.write_str(match self {
            Text::Netlist => "n",
            Text::Specification => "s",
        })
    }
}

impl Cause {
    /// The number that this refusal has, 1 to 8.
    // The numbers are a rule of the project, which prints them.
    pub fn number(self) -> usize
        ensures { result ≡ cause_number self }
    {
        match self {
            Cause::TooLong => 1,
            Cause::Shape => 2,
            Cause::Order => 3,
            Cause::Naming => 4,
            Cause::Limit => 5,
            Cause::PinCount => 6,
            Cause::Literals => 7,
            Cause::Contradiction => 8,
        }
    }
}

impl TextFault {
    /// The number of the cause.
    // as above
    pub fn number(self) -> usize
        ensures { result ≡ fault_number self }
    {
        self.cause.number()
    }
}

impl ReadFault {
    /// The number of the refusal.
    // as above
    pub fn number(self) -> usize
        ensures { result ≡ read_number self }
    {
        let ReadFault::Text(fault) = self;
        // Each type that a fault holds has to be in use here, or the check does not find it.
        let _text = fault.text;
        let cause = fault.cause;
        cause.number()
    }
}

// No derive of the toolchain says what `from` gives.
impl From<TextFault> for ReadFault {
    ghost from_gives = { λ x y. y ≡ of_text x };

    fn from(fault: TextFault) -> ReadFault {
        ReadFault::Text(fault)
    }
}

// A record has two causes more than a part, and a caller matches one enum.
impl From<PartFault> for Cause {
    ghost from_gives = { λ x y. y ≡ cause_of x };

    fn from(fault: PartFault) -> Cause {
        match fault {
            PartFault::Order => Cause::Order,
            PartFault::Limit => Cause::Limit,
            PartFault::Naming => Cause::Naming,
            PartFault::PinCount => Cause::PinCount,
            PartFault::Literals => Cause::Literals,
            PartFault::Contradiction => Cause::Contradiction,
        }
    }
}
