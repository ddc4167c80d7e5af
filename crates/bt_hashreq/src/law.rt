//! Laws of keys: a key is read back as it was written, and a key that `plan` gives makes its leaf known,
//! where a whole tree of the blocks answers it and no digest of the answer differs from one that is held.
ghost use Rattle.bt_hashreq.specs.Law.{SpellsOneKey, PlansAreLawful, PlansTeach};

use bt_tree::NodeHash;

/// No 48 bytes spell two keys. So `read_key` of what `write_key` gives is the key that was written: a theorem
/// of the two contracts.
pub fn keys_are_read_back()
    ensures { SpellsOneKey }
{}

/// The key that `plan` gives is one from which `to_claim` makes a claim, where as many digests come as it
/// names, and a request of the right shape in its tree.
pub fn plans_are_lawful()
    ensures { PlansAreLawful }
{}

/// A rooted tree with all leaves answers the key that `plan` gives of another tree over the same blocks;
/// `to_claim` makes a claim of that answer; `accept` takes it where the other tree holds no node of it with
/// another digest; and then the leaf is known.
pub fn plans_teach<H: NodeHash>(_hash: H)
    ensures { PlansTeach H.digest }
{}
