//! Room for bytes that came and are not given on yet.
ghost use Rattle.std.specs.Prelude.{◌≡◌, ◌+◌, ◌-◌, ◌<◌, ◌≤◌, [], ◌++◌, min, length, take, drop, replicate, slice_range, IfOk, OnErr};
ghost use Rattle.std.specs.Io.KnownBytes.{Consumes, Keeps, IsAtEnd};
ghost use Rattle.bt_connection.specs.Room.{IsTakenIn};

use crate::lent::Renew;
use std::alloc::{AllocError, Global};
use std::io::{self, Read};
use std::marker::Model;

/// Room for `LEN` bytes, and the bytes that are in it. A reader or a writer may borrow it for as long as the
/// connection is there.
#[derive(Drop)]
pub struct Room<const LEN: usize> {
    bytes: Vec<u8>,
    /// The bytes in the room are those from `start` to `end`: so giving some of them moves none.
    start: usize,
    end: usize,
}

impl<const LEN: usize> Model for Room<LEN> {
    ghost use Rattle.std.specs.Prelude.{◌≡◌, ◌≤◌, ℕ, List, length, slice_range};

    ghost Value = { List ℕ };

    ghost view = { λ r. slice_range r.bytes.items r.start r.end };

    ghost invariant = { λ r. (r.start ≤ r.end) × (r.end ≤ LEN) × (length r.bytes.items ≡ LEN) };
}

impl<const LEN: usize> Room<LEN> {
    /// Room with no bytes in it. All the memory that it ever takes is taken here. Errors: out of memory.
    pub fn new(alloc: Global) -> Result<Self, AllocError>
        ensures { IfOk result (λ room. room ≡ []) }
    {
        let bytes = vec![in alloc; 0; LEN]?;
        Ok(Room {
            bytes,
            start: 0,
            end: 0,
        })
    }

    /// Forgets the bytes in it.
    pub(crate) fn clear(&mut self)
        ensures { self.new ≡ [] }
    {
        self.start = 0;
        self.end = 0;
    }

    /// The bytes in it, lent.
    pub fn as_slice(&self) -> &[u8]
        ensures value { result.now ≡ self.now }
        ensures few { length self.now ≤ LEN }
    {
        &self.bytes[self.start..self.end]
    }

    /// Reads once, at most `most` bytes, behind those in it; gives how many came. Errors: those of the reader.
    pub fn read_from<R: Read>(&mut self, from: &mut R, most: usize) -> io::Result<usize>
        requires { length self.old + most ≤ LEN }
        ensures came { IfOk result (λ count.
            IsTakenIn (R.remaining from.old) (R.remaining from.new) self.old count self.new) }
        ensures few { IfOk result (λ count. count ≤ most) }
        ensures ended { IfOk result (λ count. count ≡ 0 → 0 < most → IsAtEnd
            (R.remaining from.new)) }
        ensures kept { OnErr result (Keeps (R.remaining from.old) (R.remaining from.new)) }
        ensures same { OnErr result (self.new ≡ self.old) }
    {
        let (start, end) = (self.start, self.end);
        move_to_front(&mut self.bytes, start, end);
        self.start = 0;
        self.end = end - start;
        let count = read_behind(from, self.bytes.as_mut_slice(), end - start, most)?;
        self.end += count;
        Ok(count)
    }

    /// Writes `part` over the bytes in the room from the place `at` on.
    pub fn put(&mut self, at: usize, part: &[u8])
        requires { at + length part.now ≤ length self.old }
        ensures { self.new ≡ take at self.old ++ part.now ++ drop (at + length part.now) self.old }
    {
        put_over(&mut self.bytes[self.start..self.end], at, part);
    }

    /// Fills the room up with zeros, behind the bytes in it.
    pub fn fill(&mut self)
        ensures { self.new ≡ self.old ++ replicate (LEN - length self.old) 0 }
    {
        let (start, end) = (self.start, self.end);
        move_to_front(&mut self.bytes, start, end);
        fill_behind(self.bytes.as_mut_slice(), end - start);
        self.start = 0;
        self.end = LEN;
    }

    /// Gives the first of the bytes, `most` at most, as many as the buffer has room for; gives how many they are.
    pub fn give(&mut self, most: usize, buffer: &mut [u8]) -> usize
        requires { most ≤ length self.old }
        ensures count { result ≡ min most (length buffer.old) }
        ensures given { self.old ≡ take result buffer.new ++ self.new }
        ensures few { length self.old ≤ LEN }
    {
        let count = most.min(buffer.len());
        buffer[..count].copy_from_slice(&self.as_slice()[..count]);
        self.drop_front(count);
        count
    }

    /// Gives the first `len` of the bytes. As many as the buffer has room for go into it, and it gives how many they
    /// are; the others replace what is in the room `other`.
    pub fn give_to<const OTHER: usize>(
        &mut self,
        len: usize,
        buffer: &mut [u8],
        other: &mut Room<OTHER>,
    ) -> usize
        requires few { len ≤ length self.old }
        requires fits { len ≤ OTHER }
        ensures count { result ≡ min len (length buffer.old) }
        ensures given { self.old ≡ take result buffer.new ++ other.new ++ self.new }
        ensures size { length (take result buffer.new ++ other.new) ≡ len }
        ensures within { length self.old ≤ LEN }
    {
        let count = self.give(len, buffer);
        let rest = len - count;
        other.hold(&self.as_slice()[..rest]);
        self.drop_front(rest);
        count
    }

    /// Replaces the bytes in the room by `part`.
    fn hold(&mut self, part: &[u8])
        requires { length part.now ≤ LEN }
        ensures { self.new ≡ part.now }
    {
        put_over(self.bytes.as_mut_slice(), 0, part);
        self.start = 0;
        self.end = part.len();
    }

    /// Drops the first `count` bytes.
    pub fn drop_front(&mut self, count: usize)
        requires { count ≤ length self.old }
        ensures { self.new ≡ drop count self.old }
    {
        self.start += count;
    }
}

impl<const LEN: usize> Renew for Room<LEN> {
    ghost use Rattle.std.specs.Prelude.{◌≡◌, []};

    ghost is_new = { λ r. r ≡ [] };

    fn renew(&mut self) {
        self.clear();
    }
}

/// Moves the bytes from `start` to `end` to the front.
fn move_to_front(bytes: &mut Vec<u8>, start: usize, end: usize)
    requires order { start ≤ end }
    requires within { end ≤ length bytes.old.items }
    ensures moved { take (end - start) bytes.new.items ≡ slice_range bytes.old.items start end }
    ensures size { length bytes.new.items ≡ length bytes.old.items }
{
    if start > 0 {
        bytes.copy_within(start..end, 0);
    }
}

/// Reads once into at most `most` bytes behind the first `held`, which stay; gives how many came.
fn read_behind<R: Read>(
    from: &mut R,
    bytes: &mut [u8],
    held: usize,
    most: usize,
) -> io::Result<usize>
    requires { held + most ≤ length bytes.old }
    ensures front { take held bytes.new ≡ take held bytes.old }
    ensures few { IfOk result (λ count. count ≤ most) }
    ensures came { IfOk result (λ count. Consumes (R.remaining from.old) (R.remaining from.new)
        (take count (drop held bytes.new))) }
    ensures ended { IfOk result (λ count. count ≡ 0 → 0 < most → IsAtEnd (R.remaining from.new)) }
    ensures kept { OnErr result (Keeps (R.remaining from.old) (R.remaining from.new)) }
    ensures size { length bytes.new ≡ length bytes.old }
{
    from.read(&mut bytes[held..held + most])
}

/// Writes `part` over the bytes from the place `at` on.
fn put_over(bytes: &mut [u8], at: usize, part: &[u8])
    requires { at + length part.now ≤ length bytes.old }
    ensures { bytes.new ≡ take at bytes.old ++ part.now ++ drop (at + length part.now) bytes.old }
{
    bytes[at..at + part.len()].copy_from_slice(part);
}

/// Writes zeros over all bytes behind the first `held`.
fn fill_behind(bytes: &mut [u8], held: usize)
    requires { held ≤ length bytes.old }
    ensures { bytes.new ≡ take held bytes.old ++ replicate (length bytes.old - held) 0 }
{
    bytes[held..].fill(0);
}
