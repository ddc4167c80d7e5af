//! A log that is nearly as long as a log may be.

use bt_disk::Disk;
use bt_hashreq::HashKey;
use bt_resume::{Hint, ResumeLog};
use bt_sparse::Digests;
use std::alloc::{AllocError, Global};

/// How many bytes a log has at most, of which the header takes 40.
const MAX_LOG_LEN: u64 = 1 << 40;

const HEADER_LEN: u64 = 40;

/// The longest proof that an adoption leaves, of a run of 512 leaves in a tree of 26 layers: its front of 49 bytes, and
/// 512 digests and 17.
const PROOF_DIGESTS: usize = 529;

const PROOF_LEN: u64 = 49 + 32 * 529;

const RUN_LEN: u64 = 13;

/// Appends proofs, and then runs, to a log that has no hint, until `left` of the bytes that it may have are left, or up
/// to twelve more; then flushes it. False where a call is refused.
pub fn fill<D: Disk + Drop>(
    alloc: Global,
    log: &mut ResumeLog<D>,
    left: u64,
) -> Result<bool, AllocError> {
    let room = (MAX_LOG_LEN - HEADER_LEN).saturating_sub(left);
    let proof = long_proof(alloc)?;
    let run = Hint::Marks {
        file: 0,
        first: 0,
        count: 1,
    };
    if !append_times(log, &proof, room / PROOF_LEN) {
        return Ok(false);
    }
    if !append_times(log, &run, room % PROOF_LEN / RUN_LEN) {
        return Ok(false);
    }
    Ok(log.flush().is_ok())
}

fn long_proof(alloc: Global) -> Result<Hint, AllocError> {
    let key = HashKey {
        root: [0; 32],
        base: 0,
        index: 0,
        length: 512,
        layers: 25,
    };
    let digests = vec![in alloc; [0; 32]; PROOF_DIGESTS]?;
    Ok(Hint::Proof(key, Digests::new(digests)))
}

/// Appends a hint so many times. False where a call is refused.
pub fn append_times<D: Disk + Drop>(log: &mut ResumeLog<D>, hint: &Hint, count: u64) -> bool {
    for _ in 0..count {
        if !hint.can_be_read() || log.append(hint).is_err() {
            return false;
        }
    }
    true
}
