// Line numbers (paper 01, 'Line numbers').
//
// A number of 12 bits stands in two bytes, high six bits first: each byte is a 0, six bits, and a bit that makes its count of ones odd.
// Refused: encoding a number above 4095; decoding a byte with top bit 1 or an even count of ones. Cost: constant.

#![tactic(auto)]

ghost use Rattle.std.specs.Prelude.{◌≡◌, ◌<◌};
ghost use Rattle.line_number.specs.LineNumber.{number_byte, number_good, encode_of, decode_of};

// The greatest line number.
pub const GREATEST: u16 = 4095;

// The values of six bits, those of a number byte.
const SIX_BITS: u16 = 64;

// The number's two bytes, high six bits first: none above 4095.
pub fn encode(number: u16) -> Option<(u8, u8)>
    ensures { result ≡ encode_of number }
{
    if GREATEST < number {
        return None;
    }
    let high = number_byte((number / SIX_BITS) as u8);
    let low = number_byte((number % SIX_BITS) as u8);
    Some((high, low))
}

// The number of two bytes: none if either of them is no number byte.
pub fn decode(high: u8, low: u8) -> Option<u16>
    ensures { result ≡ decode_of high low }
{
    if is_good(high) {
        if is_good(low) {
            return Some((high / 2) as u16 * SIX_BITS + (low / 2) as u16);
        }
    }
    None
}

// Whether a byte is a number byte.
pub fn is_good(byte: u8) -> bool
    ensures { result ≡ number_good byte }
{
    if byte < 128 {
        return u8::count_ones(byte) % 2 == 1;
    }
    false
}

// The byte of six bits.
fn number_byte(v: u8) -> u8
    requires { v < 64 }
    ensures { result ≡ number_byte v }
{
    v * 2 + ((u8::count_ones(v) + 1) % 2) as u8
}
