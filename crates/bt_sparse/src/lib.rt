//! Hash trees of files (BEP 52) of which some nodes are known, and which grow by proofs.
//!
//! A tree begins with the pieces root, or with a layer whose digests give it. A *claim* is what a peer sends
//! of a tree: a run of digests of one layer, and *uncles*, the siblings on the path from above the run up. It
//! is accepted where it hangs from a node that the tree holds and says nothing else of any node that it
//! holds. So every node that is held is checked: its digest and its sibling's give its parent's, and so on up
//! to the root.
#![tactic(auto)]

mod acceptance;
mod answer;
mod claim;
mod expansion;
mod law;
mod layer;
mod layer_pages;
mod node_map;
mod padding;
mod page;
mod page_table;
mod sparse_tree;
mod unknown;

pub use answer::{AnswerError, MAX_RUN_LENGTH};
pub use claim::{Claim, Digests, ProofError};
pub use law::{
    answers_agree, answers_are_taken, answers_reach_roots, claims_one, held_is_checked,
    keeps_rooted, layers_are_sound, leaves_are_files, roots_are_sound,
};
pub use sparse_tree::SparseTree;
