//! A check of a torrent's files in parts, which run side by side: how the blocks are divided, the lines by which a
//! part tells what it found, and how the runs that they tell are joined again to what a check of the whole finds.
#![tactic(auto)]

mod cut;
mod division;
mod field;
mod join;
mod law;
mod line;
mod run;
mod unit;

pub use cut::{Cut, MAX_PARTS, MAX_TOTAL, Part, Share};
pub use division::share_of;
pub use join::join_runs;
pub use law::{lines_are_read_back, shares_are_whole, sums_are_whole};
pub use line::{push_line, run_in};
pub use run::{Met, Run};
pub use unit::{blocks_of, unit_of};
