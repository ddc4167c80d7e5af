//! The hints of a log, in memory.
ghost use Rattle.std.specs.Prelude.{◌≡◌, ◌+◌, ◌*◌, ◌<◌, ◌≤◌, max, min, ◌++◌, IfOk, IfErr, OnOk, vec_len, vec_capacity};
ghost use Rattle.bt_resume.specs.OneSpelling.{IsSpelling, IsSpelling-prop};

use crate::hint::{Format, LentHint};
use crate::reader::{behind_renewal, measure_text, read_hint};
use std::alloc::{AllocError, Global};
use std::marker::Model;

/// The hints of a log. They are kept as the bytes after its header, and take no more memory than these; so
/// they are spelled out one after the other, and not told by their index.
#[derive(Drop)]
pub struct Hints {
    bytes: Vec<u8>,
    count: usize,
    /// The format of the log's header.
    begun: Format,
    /// The format of its end.
    format: Format,
    ghost spelled: { IsSpelling begun bytes.items } by { IsSpelling-prop begun bytes.items },
}

impl Model for Hints {
    ghost use Rattle.std.specs.Prelude.{◌≡◌, length};
    ghost use Rattle.bt_resume.specs.LogText.{LogText, hints_in, format_of};

    ghost Value = { LogText };

    ghost view = { λ h. h.spelled.0 };

    ghost invariant = { λ h. (h.count ≡ length (hints_in h.spelled.0))
        × (h.format ≡ format_of h.spelled.0) };
}

impl Hints {
    ghost use Rattle.std.specs.Prelude.{◌≡◌, ◌↔◌, [], length, IsTrue, IfOk};
    ghost use Rattle.bt_resume.specs.LogText.{LogText, hints_in, format_of, empty_text, joined_text};
    ghost use Rattle.bt_resume.specs.OneSpelling.{AreSpelled};
    ghost use Rattle.bt_resume.specs.Reader.{IsTaken, IsCounted};

    /// No hint, of a log whose header is of this format. Takes no memory.
    pub(crate) fn new(alloc: Global, format: Format) -> Hints
        ensures { result ≡ empty_text format }
    {
        Hints {
            bytes: Vec::new(alloc),
            count: 0,
            begun: format,
            format,
        }
    }

    /// In which format the log goes on after the hints.
    pub(crate) fn format(&self) -> Format
        ensures { result ≡ format_of self.now }
    {
        self.format
    }

    /// Puts what is read at the front of the bytes after the others, and says how many bytes spell it. The
    /// list asks for no more memory than `room` bytes, unless it has more.
    pub(crate) fn take(&mut self, bytes: &[u8], room: usize) -> Result<usize, AllocError>
        ensures { IfOk result (λ used. (taken : LogText) × IsTaken (format_of self.old) bytes.now
            taken used
            × (self.new ≡ joined_text self.old taken)) }
    {
        let found = measure_text(bytes, self.format);
        self.put(&bytes[..found.len], found.count, found.format, room)?;
        Ok(found.len)
    }

    /// Puts the hints that the bytes spell, which are `count` and end in a format, after the others.
    fn put(
        &mut self,
        bytes: &[u8],
        count: usize,
        format: Format,
        room: usize,
    ) -> Result<(), AllocError>
        requires { (text : LogText) × IsCounted (format_of self.old) bytes.now text format count }
        ensures { IfOk result (λ _. (text : LogText) × AreSpelled
            (format_of self.old) bytes.now text
            × (self.new ≡ joined_text self.old text)) }
    {
        add_bytes(&mut self.bytes, bytes, room)?;
        self.count += count;
        self.format = format;
        Ok(())
    }

    /// How many they are.
    pub fn len(&self) -> usize
        ensures { result ≡ length (hints_in self.now) }
    {
        self.count
    }

    /// Whether there is none.
    pub fn is_empty(&self) -> bool
        ensures { IsTrue result ↔ (hints_in self.now ≡ []) }
    {
        self.count == 0
    }

    /// The hints from the first on. Takes no memory.
    pub fn iter(&self) -> HintIter<'_>
        ensures { result ≡ hints_in self.now }
    {
        HintIter {
            bytes: self.bytes.as_slice(),
            format: self.begun,
        }
    }
}

/// Puts bytes after others, which are seldom moved for it.
fn add_bytes(bytes: &mut Vec<u8>, more: &[u8], room: usize) -> Result<(), AllocError>
    ensures added { IfOk result (λ _. bytes.new.items ≡ bytes.old.items ++ more.now) }
    ensures same { IfErr result (λ _. bytes.new.items ≡ bytes.old.items) }
{
    make_room(bytes, more.len(), room)?;
    bytes.extend_from_slice(more)
}

/// Makes room for more bytes after others: in all for twice as many as there are, or for `room` if that is
/// less, and at least for those that come.
fn make_room(bytes: &mut Vec<u8>, more: usize, room: usize) -> Result<(), AllocError>
    ensures same { bytes.new.items ≡ bytes.old.items }
    ensures enough { OnOk result (vec_len bytes.old + more ≤ vec_capacity bytes.new) }
    ensures room { IfOk result (λ _. vec_capacity bytes.new ≤ max (vec_capacity bytes.old)
        (max room (vec_len bytes.old + more))) }
    ensures doubled { OnOk result (vec_capacity bytes.old < vec_len bytes.old + more
        → min room (2 * vec_len bytes.old) ≤ vec_capacity bytes.new) }
{
    let len = bytes.len();
    if bytes.capacity() - len >= more {
        return Ok(());
    }
    let doubled = len.saturating_mul(2).min(room);
    bytes.reserve_exact(doubled.saturating_sub(len).max(more))
}

/// The hints of a log from one on, each spelled out as it is asked for.
#[derive(Debug, Drop)]
pub struct HintIter<'a> {
    bytes: &'a [u8],
    /// The format in which the bytes begin.
    format: Format,
    ghost spelled: { IsSpelling format bytes.now } by { IsSpelling-prop format bytes.now },
}

impl<'a> Model for HintIter<'a> {
    ghost use Rattle.std.specs.Prelude.{List};
    ghost use Rattle.bt_resume.specs.LogText.{hints_in};
    ghost use Rattle.bt_resume.specs.declared.hint.Hint.{Hint};

    ghost Value = { List Hint };

    ghost view = { λ h. hints_in h.spelled.0 };
}

impl<'a> Iterator for HintIter<'a> {
    ghost use Rattle.std.specs.Iterator.{YieldsFirstBy, item_count};
    ghost use Rattle.bt_resume.specs.LentHint.{hint_of};

    type Item = LentHint<'a>;

    ghost next_gives = { YieldsFirstBy hint_of (λ s. s) };

    ghost remaining = { item_count (λ s. s) };

    fn next(&mut self) -> Option<LentHint<'a>> {
        let part = behind_renewal(self.bytes, self.format);
        let found = read_hint(part.bytes, part.format)?;
        self.bytes = &part.bytes[found.len..];
        self.format = part.format;
        Some(found.hint)
    }
}
