//! Where a byte stands first, and the fields of a record.
ghost use Rattle.std.specs.Prelude.{◌≡◌, ◌<◌, ◌≤◌, [], ◌∷◌, length, MatchOption};
ghost use Rattle.texts.specs.Records.{before, fields};

// Where the first such byte stands, if there is one.
pub(crate) fn find(bytes: &[u8], byte: u8) -> Option<usize>
    ensures { MatchOption result (length (before byte bytes.now) ≡ length bytes.now) (λ n. (n ≡ length (before byte bytes.now)) × (n < length bytes.now)) }
{
    bytes.iter().position(|b| *b == byte)
}

// The first field of a record and what follows its comma, or none where it has no comma.
#[tactic(auto, using(crate::proofs::Splits::fields_whole, crate::proofs::Splits::fields_at))]
pub(crate) fn split_once(record: &[u8]) -> Option<(&[u8], &[u8])>
    ensures { MatchOption result (fields «record».now ≡ «record».now ∷ []) (λ x. fields «record».now ≡ x.0.now ∷ fields x.1.now) }
{
    let end = find(record, b',')?;
    Some((&record[..end], &record[end + 1..]))
}

// The only field of a record, or none where it has more.
#[tactic(auto, using(crate::proofs::Splits::some_field))]
pub(crate) fn only_field(record: &[u8]) -> Option<&[u8]>
    ensures { MatchOption result (2 ≤ length (fields «record».now)) (λ f. fields «record».now ≡ f.now ∷ []) }
{
    match split_once(record) {
        None => Some(record),
        Some(_) => None,
    }
}
