//! A check of a torrent's files by several processes that run side by side: each is a run of the program itself, which
//! checks a part and tells it by lines, and the one that was started joins what they tell.
#![tactic(auto)]

mod children;
mod jobs;
mod law;
mod part;
mod plan;
mod report;
mod share;
mod source;
mod start_fault;
mod starter;
mod told;
mod trees;

pub use jobs::{Job, check_by_parts};
pub use law::parts_are_whole;
pub use part::check_part;
pub use start_fault::StartFault;
pub use starter::{ProcessStarter, StartedPart, Starter};
