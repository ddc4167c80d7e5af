//! Many connections through one engine: what each gives is fed, and what the engine sends is put into each
//! one's way out, over any readers and any ways out.
#![tactic(auto)]

mod buffers;
mod calls;
mod frames;
mod gate;
mod member;
mod run;
mod swarm;
mod turn;

pub use bt_engine::Engine;
pub use bt_session::SessionEnd;
pub use gate::{Due, Gate, QueuedWriter};
pub use member::{HELD_BACK, Member};
pub use run::run_swarm;
