//! Reading the bytes below a node of a file's tree (BEP 52).
ghost use Rattle.std.specs.Prelude.{◌≡◌, ◌+◌, ◌*◌, ◌≤◌, length, take, IfOk, IfNone, IfSome, OnErr};
ghost use Rattle.bt_tree.specs.RootBuilder.{first_block, node_end};
ghost use Rattle.bt_tree.specs.Limits.{full_block_length};
ghost use Rattle.bt_check.specs.Reader.{EndsEarly, Gives, GivesNode, LosesFront, TellsMore};

use crate::file_hash::FileHash;
use bt_disk::DeviceFault;
use bt_tree::{BLOCK_LEN, Hash32, RootBuilder};
use std::io::{ErrorKind, Read};

/// How many bytes are read at a time: eight blocks, which are digested at once.
pub const BUFFER_LEN: usize = 8 * BLOCK_LEN;

/// Reads until the buffer is full or the bytes end, and says how many bytes came. A read that was interrupted
/// is made again. Errors: a read failed.
pub fn fill<R: Read>(reader: &mut R, buffer: &mut [u8]) -> Result<usize, DeviceFault>
    ensures count { IfOk result (λ count. count ≤ length buffer.new) }
    ensures given { IfOk result (λ count. Gives
        (R.remaining reader.old) (R.remaining reader.new) (length buffer.new)
        (take count buffer.new)) }
    ensures err { OnErr result (LosesFront (R.remaining reader.old) (R.remaining reader.new)) }
{
    let mut filled = 0;
    // A bound, so that it ends whatever the system gives.
    for _ in 0..u64::MAX {
        if filled >= buffer.len() {
            return Ok(filled);
        }
        match reader.read(&mut buffer[filled..]) {
            Ok(0) => return Ok(filled),
            Ok(count) => filled += count,
            Err(error) if error.kind() == ErrorKind::Interrupted => {}
            Err(_) => return Err(DeviceFault),
        }
    }
    Err(DeviceFault)
}

/// Reads the bytes below the builder's node, of which none came before, and gives the node's digest: none
/// where the bytes end before. Errors: a read failed.
pub fn read_node<R: Read>(
    reader: &mut R,
    builder: RootBuilder<FileHash>,
    length: u64,
    buffer: &mut [u8; BUFFER_LEN],
) -> Result<Option<Hash32>, DeviceFault>
    requires fresh { builder.count ≡ 0 }
    requires all { full_block_length * first_block builder + length ≡ node_end builder }
    ensures early { IfOk result
        (λ found. IfNone found (EndsEarly (R.remaining reader.old)
        (R.remaining reader.new) length)) }
    ensures node { IfOk result
        (λ found. IfSome found (GivesNode (R.remaining reader.old) (R.remaining reader.new) length
        builder)) }
    ensures err { OnErr result (LosesFront (R.remaining reader.old) (R.remaining reader.new)) }
{
    let mut builder = builder;
    let mut rest = length;
    while rest > 0 {
        let wanted = rest.min(BUFFER_LEN as u64) as usize;
        let run = &mut buffer[..wanted];
        if fill(reader, run)? < wanted {
            return Ok(None);
        }
        builder.push(run).unwrap();
        rest -= wanted as u64;
    }
    Ok(Some(builder.finish().unwrap()))
}

/// Whether the reader has one byte more, which is read then. Errors: the read failed.
pub fn has_more<R: Read>(reader: &mut R) -> Result<bool, DeviceFault>
    ensures ok { IfOk result (TellsMore (R.remaining reader.old) (R.remaining reader.new)) }
    ensures err { OnErr result (LosesFront (R.remaining reader.old) (R.remaining reader.new)) }
{
    let mut byte = [0];
    Ok(fill(reader, &mut byte)? == 1)
}
