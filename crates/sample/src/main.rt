// Writes the sample capture: one whole profile 0 frame with borders on, each line with 25 null bytes, as bytes of an 8-wire bus.

#![tactic(auto)]

use lent_buffer::Filled;
use line_code::Kind;
use profile::Profile;
use std::io::Print;

// The lines of a frame, its null bytes a line, and the bytes of such a line.
const LINES: u16 = 304;

const NULLS: u32 = 25;

const BYTES: usize = 393;

fn main(rt: HostRuntime) {
    for number in 0..LINES {
        write_line(rt, number);
    }
}

// Writes the line with this number: each of them may be written, and has room.
fn write_line(rt: HostRuntime, number: u16) {
    let kind = kind_of(number);
    let mut body = [0u8; Profile::LONGEST];
    fill(kind, number, &mut body);
    let mut nibbles = [0u8; 2 * BYTES];
    if put_nibbles(kind, number, &body, &mut nibbles).is_ok() {
        let mut bytes = [0u8; BYTES];
        pack(&nibbles, &mut bytes);
        put_out(rt, &bytes);
    }
}

// The nibbles of the line.
fn put_nibbles(kind: u8, number: u16, body: &[u8; Profile::LONGEST], nibbles: &mut [u8]) -> Filled {
    let all: &[u8] = body;
    writer::write(
        0,
        kind,
        number,
        all,
        Profile::NULL,
        Profile::NULL,
        NULLS,
        nibbles,
    )
}

fn put_out(rt: HostRuntime, bytes: &[u8; 393]) {
    let all: &[u8] = bytes;
    let _ = rt.stdout().write_all(all);
}

// The number of the kind of a line, borders on.
fn kind_of(number: u16) -> u8 {
    match number {
        0 => Kind::SOF.number(),
        1..=2 => Kind::BK.number(),
        10..=301 => Kind::VL.number(),
        302 => Kind::EOF.number(),
        _ => Kind::BL.number(),
    }
}

// A body: register contents in SOF, dark pixels in BK, a picture of bars in VL, the filler elsewhere.
fn fill(kind: u8, number: u16, body: &mut [u8; Profile::LONGEST]) {
    for (place, byte) in body.iter_mut().enumerate() {
        *byte = byte_at(kind, number, place);
    }
}

fn byte_at(kind: u8, number: u16, place: usize) -> u8 {
    if kind == Kind::VL.number() {
        return pixel_at(number as usize, place);
    }
    if kind == Kind::BK.number() {
        return 16;
    }
    if kind == Kind::SOF.number() && place % 2 == 0 {
        return (place / 2 % 256) as u8;
    }
    Profile::FILLER
}

// A frame of grey, with bars that get lighter from left to right and darker from top to bottom.
fn pixel_at(line: usize, place: usize) -> u8 {
    if line < 30 || 281 < line || place < 20 || 335 < place {
        return 200;
    }
    (1 + (place / 32 * 20 + (311 - line % 312) / 4) % 254) as u8
}

// Two nibbles a byte, the high one first.
fn pack(nibbles: &[u8; 786], bytes: &mut [u8; 393]) {
    for (i, byte) in bytes.iter_mut().enumerate() {
        *byte = nibbles[2 * i] % 16 * 16 + nibbles[2 * i + 1] % 16;
    }
}
