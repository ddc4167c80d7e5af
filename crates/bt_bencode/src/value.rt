//! A bencoded value in memory (BEP 3): an integer of 64 bits, a string of bytes, a list or a dictionary.

/// A bencoded value (BEP 3).
///
/// A dictionary is its keys and values in the order in which they stand: [`crate::write`] spells any
/// value, and [`crate::parse`] makes only those whose keys ascend.
#[derive(Debug, PartialEq, Eq, Drop)]
pub enum Value {
    /// An integer of 64 bits.
    Int(i64),
    /// A string of bytes, of any encoding.
    Bytes(Vec<u8>),
    List(Vec<Value>),
    Dict(Vec<(Vec<u8>, Value)>),
}
