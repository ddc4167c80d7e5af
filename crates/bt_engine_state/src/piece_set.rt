//! A set of pieces in the bytes of a bitfield (BEP 3), in which a search passes 512 pieces at once or eight.
ghost use Rattle.std.specs.List.{All};
ghost use Rattle.std.specs.Prelude.{◌≡◌, ◌↔◌, ℕ, ◌+◌, ◌-◌, ◌*◌, ◌<◌, true, false, length, replicate, slice_index_or, slice_set, take, IfOk, IfSome, IfNone, IsTrue};
ghost use Rattle.std.specs.Int.{div_ceil, bit_at};
ghost use Rattle.bt_book.specs.BitSet.{IsNext, HasNoneFrom};
ghost use Rattle.bt_machine.specs.WireEvents.{bits_in};
ghost use Rattle.bt_engine_state.specs.PieceSets.{without};
ghost use Rattle.bt_engine_state.specs.PieceSetSteps.{IsEmptyAt, IsWithinAt};

use crate::comparison::{PART_LEN, adds_nothing, has_no_bit};
use std::alloc::{AllocError, Global};
use std::marker::Model;

/// A set of a torrent's pieces, as a bitfield has them (BEP 3): the high bit of the first byte is piece 0.
#[derive(Debug, Drop)]
pub struct PieceSet {
    pieces: u32,
    /// As many as the pieces need. The bits after the last piece's say nothing.
    bytes: Vec<u8>,
}

impl Model for PieceSet {
    ghost use Rattle.std.specs.Prelude.{◌≡◌, List, Bool, length, take};
    ghost use Rattle.std.specs.Int.{div_ceil};
    ghost use Rattle.bt_machine.specs.WireEvents.{bits_in};

    ghost Value = { List Bool };

    ghost view = { λ s. take s.pieces (bits_in s.bytes.items) };

    ghost invariant = { λ s. length s.bytes.items ≡ div_ceil s.pieces 8 };
}

impl PieceSet {
    /// The set of no piece. Errors: out of memory.
    pub fn new(alloc: Global, pieces: u32) -> Result<Self, AllocError>
        ensures { IfOk result (λ s. s ≡ replicate pieces false) }
    {
        let bytes = vec![in alloc; 0; pieces.div_ceil(8) as usize]?;
        Ok(PieceSet { pieces, bytes })
    }

    /// How many pieces the torrent has.
    pub fn pieces(&self) -> u32
        ensures { result ≡ length self.now }
    {
        self.pieces
    }

    /// Whether the piece is in the set; false where there is no such piece.
    pub fn contains(&self, piece: u32) -> bool
        ensures { result ≡ slice_index_or self.now piece false }
    {
        piece < self.pieces && bit(&self.bytes, piece as usize)
    }

    /// The first piece of the set from one on. Where none of them is in the set, 512 are passed at once, or
    /// eight.
    pub fn next(&self, from: u32) -> Option<u32>
        ensures some { IfSome result (IsNext self.now from) }
        ensures none { IfNone result (HasNoneFrom self.now from) }
    {
        let pieces = self.pieces() as usize;
        let mut piece = from as usize;
        while piece < pieces {
            if piece % (8 * PART_LEN) == 0 && self.is_empty_at(piece / 8) {
                piece += 8 * PART_LEN;
            } else if self.bytes[piece / 8] == 0 {
                piece = (piece / 8 + 1) * 8;
            } else if bit(&self.bytes, piece) {
                return Some(piece as u32);
            } else {
                piece += 1;
            }
        }
        None
    }

    /// The first piece of the set from one on that is not in the other. Where none of them is such a piece,
    /// 512 are passed at once, or eight.
    pub fn next_outside(&self, other: &PieceSet, from: u32) -> Option<u32>
        ensures some { IfSome result (IsNext (without self.now other.now) from) }
        ensures none { IfNone result (HasNoneFrom (without self.now other.now) from) }
    {
        let pieces = self.pieces() as usize;
        let mut piece = from as usize;
        while piece < pieces {
            let eight = self.bytes[piece / 8];
            if piece % (8 * PART_LEN) == 0 && self.is_within_at(other, piece / 8) {
                piece += 8 * PART_LEN;
            } else if eight & other.eight(piece / 8) == eight {
                piece = 8 * (piece / 8 + 1);
            } else if bit(&self.bytes, piece) && !other.contains(piece as u32) {
                return Some(piece as u32);
            } else {
                piece += 1;
            }
        }
        None
    }

    /// Whether 64 bytes from a place on are bytes of pieces alone, and no piece there is in the set.
    fn is_empty_at(&self, place: usize) -> bool
        ensures { IsTrue result ↔ IsEmptyAt place PART_LEN self.now }
    {
        let whole = self.pieces as usize / 8;
        PART_LEN <= whole.saturating_sub(place) && has_no_bit(&self.bytes, place)
    }

    /// Whether 64 bytes from a place on are bytes of pieces alone in both sets, since the bits after a last
    /// piece say nothing, and each piece of the set there is in the other.
    fn is_within_at(&self, other: &PieceSet, place: usize) -> bool
        ensures { IsTrue result ↔ IsWithinAt place PART_LEN self.now other.now }
    {
        let whole = self.pieces.min(other.pieces) as usize / 8;
        PART_LEN <= whole.saturating_sub(place) && adds_nothing(&self.bytes, &other.bytes, place)
    }

    /// A byte of which each bit that is set says that a piece is in the set. It is 0 where there are not eight
    /// pieces.
    fn eight(&self, place: usize) -> u8
        ensures { (j : ℕ) → j < 8 → bit_at result (7 - j) ≡ 1
            → slice_index_or self.now (8 * place + j) false ≡ true }
    {
        if place < self.pieces as usize / 8 {
            self.bytes[place]
        } else {
            0
        }
    }

    /// Puts a piece into the set.
    pub fn insert(&mut self, piece: u32)
        requires { piece < length self.old }
        ensures { self.new ≡ slice_set self.old piece true }
    {
        set_bit(&mut self.bytes, piece as usize);
    }

    /// Makes it the set of the pieces of which a bitfield's bit says so. The bits after the last piece's say
    /// nothing.
    pub fn fill(&mut self, bitfield: &[u8])
        requires { length bitfield.now ≡ div_ceil (length self.old) 8 }
        ensures { self.new ≡ take (length self.old) (bits_in bitfield.now) }
    {
        self.bytes.copy_from_slice(bitfield);
    }
}

/// A bit, of which the high one of the first byte is the first.
fn bit(bytes: &[u8], place: usize) -> bool
    requires { place < 8 * length bytes.now }
    ensures { result ≡ slice_index_or (bits_in bytes.now) place false }
{
    (bytes[place / 8] >> (7 - place % 8)) % 2 == 1
}

/// Sets a bit, in the same order.
pub(crate) fn set_bit(bytes: &mut [u8], place: usize)
    requires { place < 8 * length bytes.old }
    ensures set { bits_in bytes.new ≡ slice_set (bits_in bytes.old) place true }
    ensures fits { All (λ byte. byte < 256) bytes.old → All (λ byte. byte < 256) bytes.new }
{
    bytes[place / 8] |= 1 << (7 - place % 8);
}
