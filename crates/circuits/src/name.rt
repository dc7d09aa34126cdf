//! Names of stems and outputs.
ghost use Rattle.std.specs.Prelude.{◌≡◌, true};
ghost use Rattle.circuits.specs.Names.{is_name};
ghost use Rattle.circuits.specs.Shorts.{entries};

mod bytes;

use crate::short::Short;

/// A name: 1 to 8 bytes of `a` to `z` and `0` to `9`.
#[derive(Clone, Copy, Debug, PartialEq, Eq)]
pub struct Name {
    bytes: Short<u8, 8>,
    ghost good: { is_name (entries bytes) ≡ true },
}
