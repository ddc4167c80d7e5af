//! The commands `seed` and `fetch`: over the store of a torrent's data files they wait for connections or make them,
//! one after the other or many at once, and tell what came of each.
#![tactic(auto)]

mod at_once;
mod command;
mod connections;
mod device_context;
mod hearing;
mod named_peers;
mod reception;

pub use bt_words::{Peer, Service, Serving};
pub use command::fetch::fetch;
pub use command::seed::seed;
pub use named_peers::NamedPeers;
