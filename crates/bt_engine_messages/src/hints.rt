//! The hint that a log is to keep of hashes that came: their proof, where it added a node to its tree.
ghost use Rattle.std.specs.Prelude.{◌≡◌, IfOk, IsOk, nat_lt, is_some, if◌then◌else◌};
ghost use Rattle.bt_hashreq.specs.Claim.{digests_in};
ghost use Rattle.bt_machine.specs.State.{proof_of};
ghost use Rattle.bt_engine_messages.specs.HintSteps.{hint_of};

use bt_disk::Disk;
use bt_engine_state::OpenLog;
use bt_hashreq::HashKey;
use bt_resume::Hint;
use bt_sparse::Digests;
use std::alloc::{AllocError, Global};

/// The hint of hashes that come, for the log. Without a log there is none, and no memory is taken. Errors:
/// out of memory.
pub(crate) fn hint_for<D: Disk + Drop>(
    alloc: Global,
    log: &Option<OpenLog<D>>,
    key: &HashKey,
    digests: &[u8],
) -> Result<Option<Hint>, AllocError>
    ensures value { IfOk result (λ hint. hint ≡ hint_of (is_some log.now) key.now digests.now) }
    ensures free { log.now ≡ None → IsOk result }
{
    match log {
        Some(_) => Ok(Some(proof_hint(alloc, key, digests)?)),
        None => Ok(None),
    }
}

/// The hint of a proof by its key and digests, 32 bytes each. Errors: out of memory.
fn proof_hint(alloc: Global, key: &HashKey, digests: &[u8]) -> Result<Hint, AllocError>
    ensures { IfOk result (λ hint. hint ≡ proof_of key.now (digests_in digests.now)) }
{
    let (chunks, _) = digests.as_chunks::<32>();
    let copies = chunks.to_vec(alloc)?;
    Ok(Hint::Proof(*key, Digests::new(copies)))
}

/// The hint of a proof that added this many nodes to its tree: one that added none tells a log nothing.
pub(crate) fn hint_if_added(hint: Option<Hint>, added: u32) -> Option<Hint>
    ensures { result ≡ (if nat_lt 0 added then hint else None) }
{
    if added > 0 { hint } else { None }
}
