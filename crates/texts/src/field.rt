//! What single fields say: marks, kinds of gate, literals and values.
ghost use Rattle.std.specs.Prelude.{◌≡◌, ◌≤◌, Bool, List, length, MatchOption, ◌≢◌};
ghost use Rattle.circuits.specs.Specification.{literal_list};
ghost use Rattle.texts.specs.Fields.{marked_word, has_mark, past_mark, kind_word, literal_byte, pattern_word, value_word};

use circuits::{Kind, Literal, Pattern};

// Whether the stem is read inverted, and the field without the mark that says so. Both are always there.
pub(crate) fn marked(field: &[u8]) -> (bool, &[u8])
    ensures mark { result.0 ≡ has_mark field.now }
    ensures name { result.1.now ≡ past_mark field.now }
    ensures written { field.now ≡ marked_word result.0 result.1.now }
{
    match field {
        [b'!', name @ ..] => (true, name),
        name => (false, name),
    }
}

// The kind of gate that the field names, if any. No `TryFrom`, here and below: it would have to stand in the crate of the
// kinds and literals, which knows no text.
pub(crate) fn kind_of(field: &[u8]) -> Option<Kind>
    ensures { MatchOption result ((k : Kind) → field.now ≢ kind_word k) (λ k. field.now ≡ kind_word k) }
{
    match field {
        b"and" => Some(Kind::And),
        b"nand" => Some(Kind::Nand),
        b"or" => Some(Kind::Or),
        b"nor" => Some(Kind::Nor),
        b"xor" => Some(Kind::Xor),
        b"xnor" => Some(Kind::Xnor),
        b"buf" => Some(Kind::Buf),
        b"not" => Some(Kind::Not),
        _ => None,
    }
}

// The literal that the byte stands for, if any.
fn literal_of(byte: u8) -> Option<Literal>
    ensures { MatchOption result ((l : Literal) → byte ≢ literal_byte l) (λ l. byte ≡ literal_byte l) }
{
    match byte {
        b'0' => Some(Literal::Zero),
        b'1' => Some(Literal::One),
        b'-' => Some(Literal::Dash),
        _ => None,
    }
}

// The pattern that the field is the writing of, or none where a byte is bad or there are more than twelve.
pub(crate) fn pattern_of(field: &[u8]) -> Option<Pattern>
    ensures { MatchOption result ((ls : List Literal) → length ls ≤ 12 → field.now ≢ pattern_word ls) (λ p. field.now ≡ pattern_word (literal_list p)) }
{
    let mut pattern = Pattern::none();
    for byte in field {
        let literal = literal_of(*byte)?;
        pattern.push(literal).ok()?;
    }
    Some(pattern)
}

// The value that the field is the writing of, if any.
pub(crate) fn value_of(field: &[u8]) -> Option<bool>
    ensures { MatchOption result ((v : Bool) → field.now ≢ value_word v) (λ v. field.now ≡ value_word v) }
{
    match field {
        b"0" => Some(false),
        b"1" => Some(true),
        _ => None,
    }
}
