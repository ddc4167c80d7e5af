//! What a part of a check tells.
ghost use Rattle.std.specs.Prelude.{◌≡◌, ◌↔◌, IsTrue};
ghost use Rattle.bt_parts.specs.Run.{IsWithin, is_fault};

/// Blocks of a file that lie next to each other and were checked: how many of them are right, and what was met beside.
#[derive(Clone, Copy, Debug, PartialEq, Eq, PartialOrd, Ord)]
pub struct Run {
    /// The number of the file in its torrent, from 0 on.
    pub file: u32,
    /// The first block.
    pub from: u32,
    /// The block after the last.
    pub to: u32,
    /// How many of them are right.
    pub marked: u32,
    pub met: Met,
}

/// What was met in a data file beside its blocks.
#[derive(Clone, Copy, Debug, PartialEq, Eq, PartialOrd, Ord)]
pub enum Met {
    Nothing,
    /// There is none.
    Absent,
    /// It is longer than the torrent says.
    Longer,
    /// Its length could not be had.
    Unmeasured,
    /// A read failed.
    Unread,
}

impl Run {
    /// Whether a file of `blocks` blocks has these, and no more of them are told to be right than there are.
    pub fn is_within(self, blocks: u32) -> bool
        ensures { IsTrue result ↔ IsWithin blocks self }
    {
        self.from <= self.to && self.to <= blocks && self.marked <= self.to - self.from
    }
}

impl Met {
    /// Whether a call of the file's device failed.
    pub fn is_fault(self) -> bool
        ensures { result ≡ is_fault self }
    {
        matches!(self, Met::Unmeasured | Met::Unread)
    }
}
