//! Laws of bencoding: no spelling is a proper prefix of another, and a text has one first fault at most.
//! Where it has one, it spells no canonical value.
ghost use Rattle.bt_bencode.specs.Law.{NoProperPrefix, BeginsOnce, FirstFaultIsOne, FirstFaultRefuses};

/// The law by which a reader knows where a value ends: no spelling is a proper prefix of another,
/// and no two values have spellings that begin one text. It is of values whose integers have 64 bits
/// and whose strings are each shorter than 2^64 bytes, as those of every [`Value`](crate::Value) are,
/// however long the whole spelling is. It does nothing when it runs.
#[tactic(auto, using(crate::proofs::ReadingLaws::no_proper_prefix, crate::proofs::ReadingLaws::begins_once))]
pub fn spellings_are_prefix_free()
    ensures no_proper_prefix { NoProperPrefix }
    ensures one_value { BeginsOnce }
{}

/// The law by which a refusal is settled: bytes that memory can hold, fewer than 2^64, have one first
/// fault at most, at one offset, and such bytes that have one spell no canonical value. It does nothing
/// when it runs.
#[tactic(auto, using(crate::proofs::ReadingLaws::first_fault_is_one, crate::proofs::ReadingLaws::none_spells))]
pub fn first_fault_is_one()
    ensures one_fault { FirstFaultIsOne }
    ensures no_value { FirstFaultRefuses }
{}
