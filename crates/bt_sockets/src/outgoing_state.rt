//! How far what goes out over a connection has passed.
ghost use Rattle.std.specs.Prelude.{◌≤◌};

use bt_wire::frames::REQUEST_LEN;

/// Where what goes out is in its handshake or in a message.
#[derive(Clone, Copy)]
pub(crate) struct Outgoing {
    /// The first bytes of the message, as many as a request has, and how many of them are known.
    pub(crate) head: [u8; REQUEST_LEN],
    pub(crate) known: usize,
    /// How many bytes of it are to come after these, or of the handshake.
    pub(crate) owed: usize,
    ghost within: { known ≤ 17 },
}
