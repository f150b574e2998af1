// What is kept of a mark's text as its nibbles leave the reader's window (paper 01, 'Line layout').
//
// In: the nibbles of a text one after another, numbered from its code's first, 0. Out: the two bytes after the code, whether a nibble where a
// gap has nothing but F was another, and the body, in a lent buffer. Cost: constant for a nibble.

#![tactic(auto)]

ghost use Rattle.std.specs.Prelude.{◌≡◌, ◌+◌, ◌*◌, ◌/◌, ◌%◌, ◌<◌};
ghost use Rattle.mark_text.specs.MarkText.{nothing_kept, byte_at, stray_at, kept_at, body_at};

use profile::Profile;

// What is kept of a text besides the body: the two bytes after the code (a line's number, or a gap's bytes), and whether a nibble where
// a gap has nothing but F was another.
#[derive(Clone, Copy)]
pub struct Kept {
    pub first: u8,
    pub second: u8,
    pub stray: bool,
}

impl Kept {
    // Of an empty text.
    pub fn nothing() -> Kept
        ensures { result ≡ nothing_kept }
    {
        Kept {
            first: 0,
            second: 0,
            stray: false,
        }
    }

    // With the text's nibble at the place: of a byte above 15 the low four bits.
    pub fn commit(self, profile: Profile, place: u32, nibble: u8) -> Kept
        ensures { result ≡ kept_at profile place (nibble % 16) self }
    {
        let nibble = low_four(nibble);
        let first = byte_at(2, place, nibble, self.first);
        let second = byte_at(4, place, nibble, self.second);
        let stray = stray_at(profile, place, nibble, self.stray);
        Kept {
            first,
            second,
            stray,
        }
    }
}

// The place in a text of a line's first body nibble: code and number stand before it.
pub const BODY_PLACE: u32 = 6;

// Puts the text's nibble at the place, of a byte above 15 the low four bits, into the body, if it belongs there and the body reaches so far.
pub fn store(body: &mut [u8], place: u32, nibble: u8)
    ensures { body.new ≡ body_at place (nibble % 16) body.old }
{
    if place < BODY_PLACE {
        return;
    }
    let i = ((place - BODY_PLACE) / 2) as usize;
    if Profile::LONGEST <= i {
        return;
    }
    if body.len() <= i {
        return;
    }
    let nibble = low_four(nibble);
    if place % 2 == 0 {
        body[i] = 16 * nibble;
    } else {
        body[i] = with_low(body[i], nibble);
    }
}

// The low four bits of a byte: a nibble is itself.
fn low_four(byte: u8) -> u8
    ensures { (result ≡ byte % 16) × (result < 16) }
{
    byte % 16
}

// A byte with another low nibble.
fn with_low(byte: u8, nibble: u8) -> u8
    requires { nibble < 16 }
    ensures { result ≡ byte / 16 * 16 + nibble }
{
    byte / 16 * 16 + nibble
}

// The byte whose nibbles are at the place from and the one after it.
fn byte_at(from: u32, place: u32, nibble: u8, byte: u8) -> u8
    requires { (nibble < 16) × (from < 16) }
    ensures { result ≡ byte_at from place nibble byte }
{
    if place == from {
        return 16 * nibble;
    }
    if place == from + 1 {
        return with_low(byte, nibble);
    }
    byte
}

#[tactic(auto, unfolding(crate::specs::MarkText::stray_at))]
fn stray_at(profile: Profile, place: u32, nibble: u8, stray: bool) -> bool
    ensures { result ≡ stray_at profile place nibble stray }
{
    stray || (profile.gap_start() <= place && nibble != 15)
}
