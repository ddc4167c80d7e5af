//! The frame with which bytes of a stream begin (BEP 3).
ghost use Rattle.bt_connection.specs.Flow.{Waits};
ghost use Rattle.bt_connection.specs.FrameSteps.{IsFront, IsMissing};

use bt_hashreq::number_at;
use bt_tree::BLOCK_LEN;
use bt_wire::frames::{LENGTH_LEN, PIECE, PIECE_FIELD, REQUEST, REQUEST_FIELD};

/// The length field of a piece with a whole block.
pub(crate) const BLOCK_FIELD: usize = PIECE_FIELD + BLOCK_LEN;

/// What the bytes of a stream begin with.
#[derive(Drop)]
pub(crate) enum Front {
    /// A whole frame.
    Frame,
    /// The beginning of what may become a message that is translated.
    Part,
    /// The beginning of another message, and how many bytes of that message are missing.
    Other(usize),
}

/// Finds what these bytes begin with.
pub(crate) fn front_of(bytes: &[u8]) -> Front
    ensures { IsFront bytes.now result }
{
    if bytes.len() < LENGTH_LEN {
        return Front::Part;
    }
    let field = number_at(bytes, 0) as usize;
    if field <= bytes.len() - LENGTH_LEN {
        return Front::Frame;
    }
    match bytes.get(LENGTH_LEN) {
        None if field <= BLOCK_FIELD => Front::Part,
        Some(&REQUEST) if field == REQUEST_FIELD => Front::Part,
        Some(&PIECE) if field >= PIECE_FIELD && field <= BLOCK_FIELD => Front::Part,
        _ => Front::Other(LENGTH_LEN + field - bytes.len()),
    }
}

/// How many bytes are missing behind these: until the length field is whole, where it is not; else until the frame
/// is.
pub(crate) fn missing_of(bytes: &[u8]) -> usize
    requires { Waits bytes.now }
    ensures { IsMissing bytes.now result }
{
    if bytes.len() < LENGTH_LEN {
        return LENGTH_LEN - bytes.len();
    }
    let field = number_at(bytes, 0) as usize;
    (LENGTH_LEN + field).saturating_sub(bytes.len())
}
