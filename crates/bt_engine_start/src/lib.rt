//! How an engine begins, and how it begins anew: a torrent's trees, a slot for each of its files, with its
//! device, and a book that wants all blocks. What the hints of a log bring back: trees take its proofs, and
//! each block that it records and whose leaf is known is read, and is marked where its bytes are right.
#![tactic(auto)]

mod anew;
mod beginning;
mod block_counts;
mod books;
mod devices;
mod following;
mod making;
mod marks;
mod new_book;
mod new_tree;
mod next_files;
mod piece_sizes;
mod reads;
mod recalling;
mod recovery;
mod restarting;
mod roots;
mod runs;
mod starting;
mod taking;
mod trees;

pub use restarting::restart;
pub use runs::{MarkRun, recorded_runs};
pub use starting::start;
pub use taking::take_proofs;
