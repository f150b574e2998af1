// The writer: one line as its sensor sends it (paper 01, 'Line layout' and the writer's paragraph).
//
// In: a profile and a kind by number, a line number, a body, two gap bytes (profile 0: FF FF; profile 1: the line means after a VL, 07 07
// after any other), how many null bytes, and a buffer. Out: the line's nibbles, one to a byte of the buffer, start mark to last null:
// 736 + 2k of them in profile 0, 360 + 2k in profile 1; the rest of the buffer stays. Refused, in this order, and then nothing is
// written: 11 profile, 13 kind, 14 number, 15 length of the body, 16 body or gap byte, 17 more than 255 nulls, 12 room.
// Cost: linear in what is written.

#![tactic(auto)]

ghost use Rattle.std.specs.Prelude.{[], ◌∷◌, ◌+◌, ◌*◌, ◌≤◌, length, replicate};
ghost use Rattle.profile.specs.Profile.{null_byte};
ghost use Rattle.lent_buffer.specs.Filled.{Gives};
ghost use Rattle.writer.specs.Writer.{around, write_of};
ghost use Rattle.writer.specs.Parts.{Room, PutNibbles, mark_bytes, line_bytes};

use allowed_bytes::has_bad_byte;
use lent_buffer::Filled;
use line_code::{Kind, Meaning};
use profile::Profile;
use refusal::Refusal;

// The most null bytes after a line.
const MOST_NULLS: u32 = 255;

// The nibbles around a body: two marks of eight, the number's two bytes and the gap's.
const AROUND: usize = 24;

// Writes a line's nibbles to the front of the buffer: `write_of`. First and second are the gap bytes. The answer is how many nibbles.
pub fn write(
    profile: u8,
    kind: u8,
    number: u16,
    body: &[u8],
    first: u8,
    second: u8,
    nulls: u32,
    buffer: &mut [u8],
) -> Filled
    ensures { Gives (write_of profile kind number body.now first second nulls (length buffer.old)) result buffer.old buffer.new }
{
    let p = Profile::numbered(profile).ok_or(Refusal::BAD_STATE)?;
    let k = Kind::numbered(kind).ok_or(Refusal::BAD_KIND)?;
    let (high, low) = line_number::encode(number).ok_or(Refusal::NUMBER_TOO_LARGE)?;
    if body.len() != p.body_length() {
        return Err(Refusal::WRONG_BODY_LENGTH);
    }
    if has_bad_byte(p, k, body, first, second) {
        return Err(Refusal::BYTE_NOT_ALLOWED);
    }
    if MOST_NULLS < nulls {
        return Err(Refusal::TOO_MANY_NULLS);
    }
    let count = nulls as usize;
    if buffer.len() < AROUND + 2 * body.len() + 2 * count {
        return Err(Refusal::NO_ROOM);
    }
    let end = put_line(k, high, low, body, first, second, count, buffer);
    Ok(end)
}

// The writing. Each function stores the nibbles of some bytes from a place on, and gives the place after them.

fn put_line(
    kind: Kind,
    high: u8,
    low: u8,
    body: &[u8],
    first: u8,
    second: u8,
    nulls: usize,
    buffer: &mut [u8],
) -> usize
    requires { around + 2 * length body.now + 2 * nulls ≤ length buffer.old }
    ensures { PutNibbles (line_bytes kind high low body.now first second nulls) buffer.old 0 result buffer.new }
{
    let number_at = put_mark(kind.clean_byte(), 0, buffer);
    let body_at = put_two(high, low, number_at, buffer);
    let end_at = put_bytes(body, body_at, buffer);
    let gap_at = put_mark(Meaning::EndOfLine.clean_byte(), end_at, buffer);
    let nulls_at = put_two(first, second, gap_at, buffer);
    put_nulls(nulls, nulls_at, buffer)
}

// F F F F 0 0 and a code byte.
fn put_mark(code: u8, at: usize, buffer: &mut [u8]) -> usize
    requires { Room (mark_bytes code) buffer.old at }
    ensures { PutNibbles (mark_bytes code) buffer.old at result buffer.new }
{
    let next = put_two(0xFF, 0xFF, at, buffer);
    put_two(0x00, code, next, buffer)
}

fn put_two(a: u8, b: u8, at: usize, buffer: &mut [u8]) -> usize
    requires { Room (a ∷ b ∷ []) buffer.old at }
    ensures { PutNibbles (a ∷ b ∷ []) buffer.old at result buffer.new }
{
    let next = put_byte(a, at, buffer);
    put_byte(b, next, buffer)
}

fn put_bytes(bytes: &[u8], at: usize, buffer: &mut [u8]) -> usize
    requires { Room bytes.now buffer.old at }
    ensures { PutNibbles bytes.now buffer.old at result buffer.new }
{
    let mut place = at;
    for byte in bytes {
        place = put_byte(*byte, place, buffer);
    }
    place
}

fn put_nulls(count: usize, at: usize, buffer: &mut [u8]) -> usize
    requires { Room (replicate count null_byte) buffer.old at }
    ensures { PutNibbles (replicate count null_byte) buffer.old at result buffer.new }
{
    let mut place = at;
    for _done in 0..count {
        place = put_byte(Profile::NULL, place, buffer);
    }
    place
}

// The high nibble first.
fn put_byte(byte: u8, at: usize, buffer: &mut [u8]) -> usize
    requires { Room (byte ∷ []) buffer.old at }
    ensures { PutNibbles (byte ∷ []) buffer.old at result buffer.new }
{
    buffer[at] = byte / 16;
    buffer[at + 1] = byte % 16;
    at + 2
}
