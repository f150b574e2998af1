// What a capture tool in C or Rust calls: why a mark is answered as it is, behind numbers and byte slices (paper 02, A9).
//
//   fluturenc_why(profile, before, run, first, second)    the number of the first mark's answer, and up to two values that say why
//
// It takes numbers, a slice (in C a pointer and then a length) of nibbles, a byte each, that begins at a mark, and two places for the values
// (pointers). The answer is one number, and every call sets both values; one that there is not is the greatest number of its type.
//
//   128 a good line, 129 a good gap     no values
//   1                                   the code byte; its failed parity sums, P0 to P3, as bits 0 to 3
//   4                                   the text's nibbles, found and wanted
//   5, 6                                the place of the first bad byte, from 0 in number or body, and the byte
//   7                                   the code that came
//   9                                   the place of the gap's first bad nibble, and the nibble; or the nibbles of a gap under two bytes
//   2, 3, 8                             no values
//   11, 13, 10, 36                      refused, in this order: no such profile, a kind above 5, an input above 15, no mark at the beginning
//
// Crate fluturenc_why_c exports this function under its name, for C and Rust.

#![tactic(auto)]

ghost use Rattle.std.specs.Prelude.{◌≡◌};
ghost use Rattle.reason.specs.Valued.{valued, explanation_values};
ghost use Rattle.fluturenc_why.specs.Why.{valued_number, valued_first, valued_second, sum_bits, WhyGives};

use exported_call::bit;
use reason::{FailedSums, Reason};
use refusal::Refusal;

// In place of a refusal's number: a good line, and a good gap.
const GOOD_LINE: u8 = 128;

const GOOD_GAP: u8 = 129;

// In place of a value: there is none.
const NO_VALUE: usize = usize::MAX;

// Why the run's first mark is answered as it is: by the number of the profile, and that of the kind of the mark before, 0 for none or no line kind.
pub fn fluturenc_why(
    profile: u8,
    before: u8,
    run: &[u8],
    first: &mut usize,
    second: &mut usize,
) -> u8
    ensures { WhyGives (explanation_values profile before run.now) result first.new second.new }
{
    let reason = reason::explain(profile, before, run);
    *first = first_value(reason);
    *second = second_value(reason);
    number(reason)
}

// The number of a reason.
fn number(reason: Reason) -> u8
    ensures { result ≡ valued_number (valued reason) }
{
    match reason {
        Reason::GoodLine => GOOD_LINE,
        Reason::GoodGap => GOOD_GAP,
        Reason::DamagedCode(_, _) => Refusal::DAMAGED_CODE.0,
        Reason::ReservedCode => Refusal::RESERVED_CODE.0,
        Reason::UnfinishedLine => Refusal::UNFINISHED_LINE.0,
        Reason::WrongLength(_, _) => Refusal::WRONG_LENGTH.0,
        Reason::BadNumber(_, _) => Refusal::BAD_NUMBER.0,
        Reason::BadBody(_, _) => Refusal::BAD_BODY.0,
        Reason::NoEndOfLine(_) => Refusal::NO_END_OF_LINE.0,
        Reason::EndWithoutLine => Refusal::END_WITHOUT_LINE.0,
        Reason::BadGap(_, _) => Refusal::BAD_GAP.0,
        Reason::ShortGap(_) => Refusal::BAD_GAP.0,
        Reason::Refused(refusal) => refusal.0,
    }
}

// The first value of a reason.
fn first_value(reason: Reason) -> usize
    ensures { result ≡ valued_first (valued reason) }
{
    match reason {
        Reason::GoodLine => NO_VALUE,
        Reason::GoodGap => NO_VALUE,
        Reason::DamagedCode(byte, _) => byte as usize,
        Reason::ReservedCode => NO_VALUE,
        Reason::UnfinishedLine => NO_VALUE,
        Reason::WrongLength(found, _) => found,
        Reason::BadNumber(place, _) => place,
        Reason::BadBody(place, _) => place,
        Reason::NoEndOfLine(code) => code as usize,
        Reason::EndWithoutLine => NO_VALUE,
        Reason::BadGap(place, _) => place,
        Reason::ShortGap(nibbles) => nibbles,
        Reason::Refused(_) => NO_VALUE,
    }
}

// The second value of a reason.
fn second_value(reason: Reason) -> usize
    ensures { result ≡ valued_second (valued reason) }
{
    match reason {
        Reason::GoodLine => NO_VALUE,
        Reason::GoodGap => NO_VALUE,
        Reason::DamagedCode(_, sums) => sum_bits(sums),
        Reason::ReservedCode => NO_VALUE,
        Reason::UnfinishedLine => NO_VALUE,
        Reason::WrongLength(_, wanted) => wanted,
        Reason::BadNumber(_, byte) => byte as usize,
        Reason::BadBody(_, byte) => byte as usize,
        Reason::NoEndOfLine(_) => NO_VALUE,
        Reason::EndWithoutLine => NO_VALUE,
        Reason::BadGap(_, nibble) => nibble as usize,
        Reason::ShortGap(_) => NO_VALUE,
        Reason::Refused(_) => NO_VALUE,
    }
}

// The parity sums that fail, as bits 0 to 3.
fn sum_bits(sums: FailedSums) -> usize
    ensures { result ≡ sum_bits sums }
{
    bit(sums.p0) as usize
        + 2 * bit(sums.p1) as usize
        + 4 * bit(sums.p2) as usize
        + 8 * bit(sums.p3) as usize
}
