//! The gate of a swarm over sockets: one thread that looks at all connections by their readiness, and waits for none.
#![tactic(auto)]

mod clock;
mod gate;
mod guest;
mod marks;
mod parting;
mod ready_stream;
mod seats;
mod way_out;

pub use bt_doors::{Dialling, Door, Listening, Visitor};
pub use bt_session::PeerEnd;
pub use gate::TcpGate;
pub use ready_stream::ReadyStream;
pub use seats::{SeatReader, Seats};
pub use way_out::SeatWriter;
