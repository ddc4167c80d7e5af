//! Peers over TCP.
#![tactic(auto)]

mod link;
mod listener;
mod open_requests;
mod outgoing;
mod outgoing_state;
mod parting;
mod passage;
mod remembered;
mod stream;
mod telling;
mod timed_stream;
mod timing;

pub use link::TcpLink;
pub use listener::{
    ACCEPT_TRIES, FIRST_PAUSE_MILLIS, LONGEST_PAUSE_MILLIS, SESSION_TURNS, is_no_listener, listen,
    port_of, serve,
};
pub use parting::{PARTING_LEN, PARTING_MILLIS, take_part};
pub use passage::{Passage, Seat, Shared};
pub use stream::{
    CONNECT_SECONDS, IDLE_SECONDS, StreamReader, StreamWriter, addresses_of, refusal_kind,
};
pub use telling::{tell_address, tell_arrival, tell_dial, tell_failure, tell_visit};
pub use timed_stream::TimedStream;
pub use timing::{Role, Timed, Timing, WORK_SECONDS};
