//! Numerals: runs of decimal digits, and the numbers that they write.
ghost use Rattle.std.specs.Prelude.{◌≡◌, ◌≢◌, ◌^◌, ◌<◌, ◌≤◌, ◌↔◌, length, slice_index, slice_range};
ghost use Rattle.std.specs.Prelude.{FitsSigned, IsTrue, IfOk, IfErr};
ghost use Rattle.std.specs.Int.{w64};
ghost use Rattle.std.specs.Option.{SomeIff};
ghost use Rattle.std.specs.Char.{IsAsciiDigit};
ghost use Rattle.std.specs.Str.{IsAscii};
ghost use Rattle.std.specs.Str.Parse.{AllDigits, IsNumeral, digits_value};
ghost use Rattle.std.specs.Str.Parse.{without_leading_sign, signed_digits_value};
ghost use Rattle.bt_bencode.specs.Error.{AtFault};
ghost use Rattle.bt_bencode.specs.Number.{LeadsWithZero, NumeralStops};
ghost use Rattle.bt_bencode.specs.ReaderSteps.{FaultFrom, IsNumeralAt};
ghost use Rattle.bt_bencode.specs.declared.error.BencodeError.TheVariants.{OutOfMemory};

use crate::error::BencodeError;
use std::str;

/// Where the run of decimal digits that begins at `at` ends.
#[tactic(auto, using(crate::proofs::Steps::digits_end_steps))]
fn digits_end(bytes: &[u8], at: usize) -> usize
    requires { at ≤ length bytes.now }
    ensures from { at ≤ result }
    ensures inside { result ≤ length bytes.now }
    ensures digits { AllDigits 10 (slice_range bytes.now at result) }
    ensures ended { ¬ IsAsciiDigit (slice_index bytes.now result) }
{
    let mut end = at;
    while end < bytes.len() && bytes[end].is_ascii_digit() {
        end += 1;
    }
    end
}

/// Whether the text begins with a zero that may not stand: after a minus, or before another digit.
fn leads_with_zero(text: &[u8], negative: bool) -> bool
    ensures { IsTrue result ↔ LeadsWithZero negative text.now }
{
    match text {
        [b'0', next, ..] => negative || next.is_ascii_digit(),
        [b'0'] => negative,
        _ => false,
    }
}

/// Where the numeral that begins at `at` ends: the index of the byte `stop` after its last digit.
pub(crate) fn numeral_end(
    bytes: &[u8],
    at: usize,
    negative: bool,
    stop: u8,
) -> Result<usize, BencodeError>
    requires { at ≤ length bytes.now }
    ensures found { IfOk result (IsNumeralAt negative stop bytes.now at) }
    ensures fault { IfErr result (AtFault (FaultFrom (NumeralStops negative stop) bytes.now at)) }
    ensures memory { IfErr result (λ e. e ≢ OutOfMemory) }
{
    if leads_with_zero(&bytes[at..], negative) {
        return Err(BencodeError::LeadingZero(at));
    }
    let end = digits_end(bytes, at);
    if end == bytes.len() {
        return Err(BencodeError::Truncated(end));
    }
    if end == at || bytes[end] != stop {
        return Err(BencodeError::BadByte(end));
    }
    Ok(end)
}

/// The bytes as text.
#[tactic(auto, using(crate::proofs::Steps::text_steps))]
fn ascii_text(bytes: &[u8]) -> &str
    requires { IsAscii bytes.now }
    ensures { result.now ≡ bytes.now }
{
    match str::from_utf8(bytes) {
        Ok(text) => text,
        Err(_) => unreachable!(),
    }
}

/// The length that the digits write; None where it is more than any slice has.
#[tactic(auto, using(crate::proofs::Steps::text_steps))]
pub(crate) fn length_of(digits: &[u8]) -> Option<usize>
    requires { IsNumeral 10 digits.now }
    ensures { SomeIff result (digits_value 10 digits.now < 2 ^ 64) (digits_value 10 digits.now) }
{
    ascii_text(digits).parse().ok()
}

/// The integer that digits, perhaps after a sign, write; None for any other text, and where it has
/// more than 64 bits.
pub(crate) fn integer_of(numeral: &[u8]) -> Option<i64>
    requires { IsAscii numeral.now }
    ensures { let number = signed_digits_value 10 numeral.now in
        SomeIff result (IsNumeral 10 (without_leading_sign numeral.now)
        × FitsSigned w64 number) number }
{
    ascii_text(numeral).parse().ok()
}
