//! The hash messages of BitTorrent v2 (BEP 52): the key that names a run of a tree's digests and the uncles
//! above it, what is claimed by the digests that come with a key, and which key to ask for next.
#![tactic(auto)]

mod claim;
mod fields;
mod key;
mod law;
mod request;

pub use claim::{MAX_DIGESTS, digest_count, to_claim};
pub use fields::{number_at, put};
pub use key::{HashKey, KEY_LEN, read_key, whole_key, write_key};
pub use law::{keys_are_read_back, plans_are_lawful, plans_teach};
pub use request::{MAX_RUN_HEIGHT, plan};
