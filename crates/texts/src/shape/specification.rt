//! The records of a specification.
ghost use Rattle.texts.specs.Records.{fields};
ghost use Rattle.texts.specs.Shapes.{RowApart};

use crate::record::{only_field, split_once};
use crate::shape::RowFields;

// The fields of a row's record, if there are four and the first is `spec`.
pub(crate) fn row_shape(record: &[u8]) -> Option<RowFields<'_>>
    ensures { RowApart (fields «record».now) result }
{
    let (b"spec", rest) = split_once(record)? else {
        return None;
    };
    let (output, rest) = split_once(rest)?;
    let (pattern, rest) = split_once(rest)?;
    let value = only_field(rest)?;
    Some(RowFields {
        output,
        pattern,
        value,
    })
}
