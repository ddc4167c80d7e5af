//! What stands between the socket of a peer and its engine: readers one above the other, and writers, each over any
//! reader or writer.
#![tactic(auto)]

mod alarm_reader;
mod blocks;
mod frame;
mod law;
mod lent;
mod messages;
mod observer;
mod padded;
mod padding;
mod queue;
mod read_ahead;
mod requests;
mod room;
mod short_blocks;
mod translation;

pub use alarm_reader::AlarmReader;
pub use law::{
    given_on_can_be_sent, gives_streams, pads_what_was_asked, plain_passes_through,
    remembers_short_blocks, short_blocks_are_last, zeros_lie_behind_the_end,
};
pub use lent::{Lent, Renew};
pub use observer::{Arrival, Observer};
pub use padded::Padded;
pub use padding::Padding;
pub use queue::Queue;
pub use read_ahead::{AheadRoom, ReadAhead};
pub use requests::{HoldingWriter, Requests, SendingReader};
pub use room::Room;
pub use short_blocks::ShortBlocks;
pub use translation::{FrameRoom, Side};
