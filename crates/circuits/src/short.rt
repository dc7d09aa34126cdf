//! Short lists, held in the value itself.
ghost use Rattle.std.specs.Prelude.{◌≡◌, Bool, true, not};
ghost use Rattle.circuits.specs.Names.{zero_byte};
ghost use Rattle.circuits.specs.Tables.{holds_front};

mod list;

/// What stands in the places of a short list that are not used.
// `Default` would do, but for the test of a blank value that a ghost field needs.
pub trait Blank: Copy {
    ghost is_blank: { Self → Bool };

    /// The value of a place that is not used.
    fn blank() -> Self
        ensures { is_blank result ≡ true };
}

impl Blank for u8 {
    ghost is_blank = { zero_byte };

    fn blank() -> u8 {
        0
    }
}

impl Blank for bool {
    ghost is_blank = { not };

    fn blank() -> bool {
        false
    }
}

/// There is no room for a further entry.
#[derive(Clone, Copy, Debug, PartialEq, Eq)]
pub struct Full;

/// A list of at most `N` entries, held in the value itself: they stand at the front of a table, whose other places are
/// blank.
// Names, pins and patterns are `Copy`; the lists of the toolchain's arrayvec are not. No heap, so a table and a length.
#[derive(Copy, Debug)]
pub struct Short<T: Blank, const N: usize> {
    table: [T; N],
    len: usize,
    ghost good: { holds_front T.is_blank N table len ≡ true },
}
