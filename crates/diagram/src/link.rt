//! The links of chains.
ghost use Rattle.std.specs.Prelude.{◌≡◌, ◌≢◌, Some};
ghost use Rattle.diagram.specs.Chains.{handle_of};

/// The link of a chain: the handle of a row, or none. It takes the two bytes of a handle, where an `Option` would take
/// four: no row has the handle 0, which stands for none here alone.
#[derive(Clone, Copy, Debug, PartialEq, Eq)]
pub(crate) struct Link {
    raw: u16,
}

impl Link {
    /// To no row.
    pub(crate) const NONE: Link = Link { raw: 0 };

    // To the row of this handle.
    pub(crate) fn to(handle: u16) -> Link
        requires { handle ≢ 0 }
        ensures { handle_of result ≡ Some handle }
    {
        Link { raw: handle }
    }

    // The handle of the row that it leads to, if any.
    pub(crate) fn handle(self) -> Option<u16>
        ensures { result ≡ handle_of self }
    {
        if self.raw == 0 { None } else { Some(self.raw) }
    }
}
