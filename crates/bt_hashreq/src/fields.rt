//! Numbers and runs of bytes at fixed places of a message.
ghost use Rattle.std.specs.Prelude.{◌≡◌, ◌+◌, ◌≤◌, ◌++◌, length, take, drop};
ghost use Rattle.std.specs.Int.{w32, to_be_bytes};

/// The number that the four bytes from `at` on spell, the high byte first.
pub fn number_at(bytes: &[u8], at: usize) -> u32
    requires { at + 4 ≤ length bytes.now }
    ensures { to_be_bytes w32 result ≡ take 4 (drop at bytes.now) }
{
    u32::from_be_bytes([bytes[at], bytes[at + 1], bytes[at + 2], bytes[at + 3]])
}

/// Writes a run over the bytes from `at` on. Those before it and after it stay.
pub fn put<const N: usize>(bytes: &mut [u8; N], at: usize, run: &[u8])
    requires { at + length run.now ≤ N }
    ensures front { take (at + length run.now) bytes.new ≡ take at bytes.old ++ run.now }
    ensures behind { drop (at + length run.now) bytes.new ≡ drop (at + length run.now) bytes.old }
{
    let bytes = &mut bytes[..];
    bytes[at..at + run.len()].copy_from_slice(run);
}
