//! A session with one peer: its bytes are fed to an engine, and what the engine sends to it is written, over
//! any reader and any writer. And peers that are dialled one after the other, each for a session, until the
//! engine is complete.
#![tactic(auto)]

mod buffers;
mod calls;
mod end;
mod flushing;
mod frames;
mod incoming;
mod law;
mod link;
mod peer;
mod peer_end;
mod peers;
mod session;
mod turn;
mod watched;

pub use bt_engine::Engine;
pub use end::SessionEnd;
pub use flushing::Flushing;
pub use law::sessions_are_runs;
pub use link::Link;
pub use peer::meet_peer;
pub use peer_end::{PeerEnd, end_text};
pub use peers::{run_peers, run_peers_with_flushes};
pub use session::{run_session, run_session_with_flushes};
pub use watched::{WatchedReader, WatchedWriter};
