//! The engine: a torrent's files on their devices, and the peers that they are taken from and served to, as
//! a run of the machine of `bt_machine`; lists of its events, and what is promised of every one of them.
#![tactic(auto)]

mod engine;
mod event;
mod greeting;
mod leads;
mod news;
mod next;
mod pending;
mod promises;
mod reopening;
mod room;
mod run;
mod standing;
mod whole_runs;

pub use bt_book::PeerKey;
pub use bt_machine::{
    AdoptError, Answer, ConnectError, EngineError, Event, FileReport, FlushError, Frame, Note,
    Output, RestartError, StartError, StartRefused, Why,
};
pub use bt_resume::ResumeLog;
pub use bt_store::Adopted;
pub use engine::Engine;
pub use leads::what_leads_on_stands;
pub use promises::{flushed_blocks_stay, run_as_promised};
pub use reopening::{ReopenError, ReopenRefused, reopen};
pub use run::run_events;
pub use whole_runs::whole_runs_keep_promises;
