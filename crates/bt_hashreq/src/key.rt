//! The key of a hash message (BEP 52): which digests of a tree it names, and the 48 bytes that spell it.
ghost use Rattle.std.specs.Prelude.{◌≡◌, ◌↔◌, length, IsSome, IfSome};
ghost use Rattle.bt_hashreq.specs.Key.{key_length, key_spelling, IsKey};

use crate::fields::{number_at, put};
use bt_tree::Hash32;

/// How many bytes a key has in a message (BEP 52).
pub const KEY_LEN: usize = 48;

/// Which digests of a file's tree a hash message speaks of (BEP 52, "hash request").
#[derive(Clone, Copy, Debug, PartialEq, Eq)]
pub struct HashKey {
    /// The file's pieces root.
    pub root: Hash32,
    /// The layer of the run, counted from the leaves at 0.
    pub base: u32,
    /// The index of the run's first node in its layer.
    pub index: u32,
    /// How many nodes the run has.
    pub length: u32,
    /// How many layers above the base may have an uncle.
    pub layers: u32,
}

/// The key that 48 bytes spell: the root, and then base, index, length and layers in 4 bytes each, the high
/// byte first. None for any other number of bytes.
pub fn read_key(bytes: &[u8]) -> Option<HashKey>
    ensures some { IsSome result ↔ (length bytes.now ≡ key_length) }
    ensures key { IfSome result (λ key. key_spelling key ≡ bytes.now) }
{
    if bytes.len() != KEY_LEN {
        return None;
    }
    Some(whole_key(bytes))
}

/// The key that these 48 bytes spell, as `read_key` reads it.
pub fn whole_key(bytes: &[u8]) -> HashKey
    requires { length bytes.now ≡ key_length }
    ensures spelled { key_spelling result ≡ bytes.now }
    ensures numbers { IsKey result }
{
    let (front, numbers) = bytes.split_at(32);
    let mut root = [0; 32];
    root.copy_from_slice(front);
    HashKey {
        root,
        base: number_at(numbers, 0),
        index: number_at(numbers, 4),
        length: number_at(numbers, 8),
        layers: number_at(numbers, 12),
    }
}

/// The bytes that spell a key, as `read_key` reads them.
pub fn write_key(key: &HashKey) -> [u8; KEY_LEN]
    ensures { result ≡ key_spelling key.now }
{
    let mut bytes = [0; KEY_LEN];
    put(&mut bytes, 0, &key.root);
    put(&mut bytes, 32, &key.base.to_be_bytes());
    put(&mut bytes, 36, &key.index.to_be_bytes());
    put(&mut bytes, 40, &key.length.to_be_bytes());
    put(&mut bytes, 44, &key.layers.to_be_bytes());
    bytes
}
