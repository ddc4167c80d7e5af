//! The parts of a check, and what a file is cut into.
ghost use Rattle.std.specs.Prelude.{◌≡◌, ◌<◌, ◌≤◌, IfSome, IfNone};
ghost use Rattle.bt_parts.specs.declared.cut.TheConstants.{MAX_PARTS};

/// How many parts there may be.
pub const MAX_PARTS: u32 = 64;

/// How many bytes may be counted in all: twice as many as the 2^16 files of a torrent have where each is as
/// long as may be, 2^40 bytes. As many times this as there are parts is a number of 64 bits.
pub const MAX_TOTAL: u64 = 1 << 57;

/// One of the parts of a check.
#[derive(Clone, Copy, Debug)]
pub struct Part {
    /// Its number, from 0 on.
    pub index: u32,
    /// How many there are.
    pub count: u32,
    ghost inside: { index < count },
    ghost few: { count ≤ MAX_PARTS },
}

impl Part {
    /// The part of this number: none where there is no such, or there are too many.
    pub fn new(index: u32, count: u32) -> Option<Part>
        ensures some { IfSome result (λ part. (part.index ≡ index) × (part.count ≡ count)) }
        ensures none { IfNone result (index < count → ¬ (count ≤ MAX_PARTS)) }
    {
        if index >= count || count > MAX_PARTS {
            return None;
        }
        Some(Part { index, count })
    }
}

/// Where a file begins, among a torrent's bytes that are counted through, and what it is cut into.
#[derive(Clone, Copy, Debug)]
pub struct Cut {
    /// The number of its first byte. A file without a byte counts as one byte.
    pub place: u64,
    /// How many blocks it has.
    pub blocks: u32,
    /// How many blocks are not parted: one at least.
    pub unit: u32,
    ghost some: { 0 < unit },
}

/// What a part is to check of a file: blocks that lie next to each other, or none.
#[derive(Clone, Copy, Debug, PartialEq, Eq)]
pub struct Share {
    /// The first block.
    pub from: u32,
    /// The block after the last.
    pub to: u32,
    /// Whether the part has the byte at which the file begins. It tells of the file's length then.
    pub is_first: bool,
}
