//! What a name is made from.
ghost use Rattle.std.specs.Prelude.{◌≡◌, true, false, MatchOption};
ghost use Rattle.circuits.specs.Circuits.{name_bytes};
ghost use Rattle.circuits.specs.Names.{is_name};

use crate::name::Name;
use crate::short::Short;

// Whether these bytes are a name.
fn is_name(bytes: &[u8]) -> bool
    ensures { result ≡ is_name bytes.now }
{
    !bytes.is_empty()
        && bytes.len() <= 8
        && bytes
            .iter()
            .all(|byte| byte.is_ascii_lowercase() || byte.is_ascii_digit())
}

impl Name {
    /// The name of these bytes, or none where they are no name.
    pub fn new(bytes: &[u8]) -> Option<Name>
        ensures { MatchOption result (is_name bytes.now ≡ false) (λ x. (is_name bytes.now ≡ true) × (name_bytes x ≡ bytes.now)) }
    {
        if !is_name(bytes) {
            return None;
        }
        let mut name = Short::none();
        for byte in bytes {
            name.push(*byte).unwrap();
        }
        Some(Name { bytes: name })
    }
}
