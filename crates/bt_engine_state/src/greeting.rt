//! The bitfield that a new peer is sent (BEP 3): it has the pieces of which each block is marked.
ghost use Rattle.std.specs.Prelude.{◌≡◌, ◌-◌, ◌*◌, ◌<◌, ◌==◌, ◌++◌, All, false, length, map, replicate, IfOk};
ghost use Rattle.std.specs.Int.{div_ceil};
ghost use Rattle.bt_machine.specs.WireEvents.{bits_in};

use crate::piece_set::set_bit;
use std::alloc::{AllocError, Global};

/// The bitfield of the pieces that have no unmarked block (BEP 3). Errors: out of memory.
pub(crate) fn bitfield(alloc: Global, unmarked: &[u32]) -> Result<Vec<u8>, AllocError>
    ensures fits { IfOk result (λ bytes. All (λ byte. byte < 256) bytes.items) }
    ensures size { IfOk result (λ bytes. length bytes.items ≡ div_ceil (length unmarked.now) 8) }
    ensures bits { IfOk result (λ bytes. bits_in bytes.items ≡ map
        (λ count. count == 0) unmarked.now
        ++ replicate (8 * length bytes.items - length unmarked.now) false) }
{
    let mut bytes = vec![in alloc; 0; unmarked.len().div_ceil(8)]?;
    for (piece, count) in unmarked.iter().enumerate() {
        if *count == 0 {
            set_bit(&mut bytes, piece);
        }
    }
    Ok(bytes)
}
