//! What `seed` and `fetch` do with many connections at once, over any gate. Connections that are served are numbered,
//! and the line of each is written as it goes. Of all peers that are dialled blocks are fetched, and what came
//! without its hashes is taken in.
#![tactic(auto)]

mod ending;
mod fetching;
mod numbered;
mod peer_lines;
mod seating;
mod served_lines;
mod serving;

pub use fetching::fetch_at_once;
pub use peer_lines::{tell_peer, tell_peers};
pub use seating::Seating;
pub use served_lines::tell_served;
pub use serving::serve_together;
