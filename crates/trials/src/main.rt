// Captures that are made and judged: those that misled before, and their like. Each is written as lines by our own writer, both sensors',
// with one kind of damage. They are lines of standard input: the file stdin says how to read them. What `frames` says of each is in stdout,
// below its title.

#![tactic(auto)]

ghost use Rattle.std.specs.Prelude.{◌≡◌, length};

use host_calls::Source;
use line_code::Kind;
use list_frames::FrameLister;
use profile::Profile;
use script_words::{end_line, number_to, say, say_front, word_at};

// The bytes of the largest capture: ten frames of a VV5300.
const MOST: usize = 320000;

fn main(rt: HostRuntime) {
    let mut script = [0u8; host_calls::ROOM];
    let n = host_calls::read_full(&mut Source::Standard(rt.stdin()), &mut script);
    if n == 4096 {
        host_calls::complain(rt, b"the script is longer than 4,095 bytes\n");
        return;
    }
    run(rt, &script[..n]);
}

fn run(rt: HostRuntime, script: &[u8]) {
    let mut bytes = room();
    follow(rt, script, &mut bytes);
}

// Room for any capture.
fn room() -> [u8; MOST]
    ensures { 320000 ≡ length result }
{
    [0; MOST]
}

// Each line of a script.
fn follow(rt: HostRuntime, script: &[u8], bytes: &mut [u8]) {
    let mut at: usize = 0;
    for line in script.split(|sign| *sign == b'\n') {
        at = step(rt, line, bytes, at);
    }
}

// A line of the script, by its first letter: the place of the capture's next nibble after it. Any other line is passed over.
fn step(rt: HostRuntime, line: &[u8], bytes: &mut [u8], at: usize) -> usize {
    if line.len() == 0 {
        return at;
    }
    match line[0] {
        b'#' => titled(rt, line),
        b'l' => put_lines(line, bytes, at),
        b'z' => put_zeros(number_at(line, 1), bytes, at),
        b'j' => judged(rt, sensor(number_at(line, 1)), bytes, at),
        _ => at,
    }
}

// A title is written; the next capture begins.
fn titled(rt: HostRuntime, line: &[u8]) -> usize {
    say(rt, line);
    end_line(rt);
    0
}

fn sensor(number: usize) -> Profile {
    if number == 0 {
        return Profile::VV5404;
    }
    Profile::VV5300
}

// The number that is a line's word with this number, the first being 0; where there is none, 0.
fn number_at(line: &[u8], word: usize) -> usize {
    number_to(word_at(line, word), MOST as u64) as usize
}

// Judges the first nibbles of some bytes, and writes the report: they stay the capture.
fn judged(rt: HostRuntime, profile: Profile, bytes: &[u8], nibbles: usize) -> usize {
    let length = nibbles / 2;
    if length <= bytes.len() {
        judge(rt, profile, &bytes[..length]);
    }
    nibbles
}

fn judge(rt: HostRuntime, profile: Profile, capture: &[u8]) {
    let mut out = [0u8; host_calls::LARGE_ROOM];
    report(rt, profile, capture, &mut out);
}

fn report(rt: HostRuntime, profile: Profile, capture: &[u8], out: &mut [u8]) {
    let lister = FrameLister::new(profile);
    let listed = lister.list(capture, 0, out);
    say_front(rt, out, listed.used);
    let lister = listed.lister;
    let last = lister.finish(out);
    say_front(rt, out, last.used);
}

// Puts lines of a frame at a nibble's place, and gives the place after them. The numbers of the script's line: the sensor, whether borders are on,
// the frame's place to start from and the one to stop at; and what happens to each line on its way: the nibble of which two bits flip, none where
// that is 0, and the nibbles that are missing, from one place on, up to another.
fn put_lines(line: &[u8], bytes: &mut [u8], at: usize) -> usize {
    let mut next = at;
    for place in number_at(line, 3)..number_at(line, 4) {
        next = put_line(line, place, bytes, next);
    }
    next
}

// Puts the line at a place of a frame.
fn put_line(line: &[u8], place: usize, bytes: &mut [u8], at: usize) -> usize {
    let mut nibbles = [0u8; 800];
    let n = write(line, place, &mut nibbles);
    flip(&mut nibbles, number_at(line, 5));
    let next = put_nibbles(&nibbles, 0, number_at(line, 6), bytes, at);
    put_nibbles(&nibbles, number_at(line, 7), n, bytes, next)
}

// Flips two bits of the nibble at a place, none at 0.
fn flip(nibbles: &mut [u8], at: usize) {
    if at == 0 {
        return;
    }
    if at < nibbles.len() {
        nibbles[at] = nibbles[at] ^ 6;
    }
}

// The nibbles of the line at a place of a frame, with no null bytes, and how many they are. Filler may stand in every body.
fn write(line: &[u8], place: usize, nibbles: &mut [u8]) -> usize {
    let body = [Profile::FILLER; Profile::LONGEST];
    let profile = sensor(number_at(line, 1));
    let length = profile.body_length();
    if Profile::LONGEST < length {
        return 0;
    }
    let kind = kind_at(profile, number_at(line, 2) == 1, place);
    write_line(profile, kind, place, &body[..length], nibbles)
}

fn write_line(
    profile: Profile,
    kind: Kind,
    place: usize,
    body: &[u8],
    nibbles: &mut [u8],
) -> usize {
    let gap = gap_byte(profile);
    let filled = writer::write(
        profile_number(profile),
        kind.number(),
        (place % 65536) as u16,
        body,
        gap,
        gap,
        0,
        nibbles,
    );
    filled.unwrap_or(0)
}

fn profile_number(profile: Profile) -> u8 {
    match profile {
        Profile::VV5404 => 0,
        Profile::VV5300 => 1,
    }
}

// A byte that may stand in any gap.
fn gap_byte(profile: Profile) -> u8 {
    match profile {
        Profile::VV5404 => Profile::NULL,
        Profile::VV5300 => Profile::FILLER,
    }
}

// The kind of the line at a place (004's figures; 000, 'Frame Level Formatting').
fn kind_at(profile: Profile, on: bool, place: usize) -> Kind {
    match profile {
        Profile::VV5404 => {
            if on {
                return kind_within(10, 301, 302, place);
            }
            kind_within(12, 299, 300, place)
        }
        Profile::VV5300 => {
            if on {
                return kind_within(11, 134, 145, place);
            }
            kind_within(13, 132, 145, place)
        }
    }
}

fn kind_within(first: usize, last: usize, end: usize, place: usize) -> Kind {
    if place == 0 {
        Kind::SOF
    } else if place < 3 {
        Kind::BK
    } else if place == end {
        Kind::EOF
    } else if place < first || last < place {
        Kind::BL
    } else {
        Kind::VL
    }
}

// Puts so many nibbles 0.
fn put_zeros(count: usize, bytes: &mut [u8], at: usize) -> usize {
    let mut next = at;
    for _ in 0..count {
        next = put_nibble(0, bytes, next);
    }
    next
}

// Puts nibbles from one place to another.
fn put_nibbles(nibbles: &[u8], from: usize, to: usize, bytes: &mut [u8], at: usize) -> usize {
    let mut next = at;
    for i in from..to {
        next = put_nibble(nibble_at(nibbles, i), bytes, next);
    }
    next
}

fn nibble_at(nibbles: &[u8], i: usize) -> u8 {
    if i < nibbles.len() {
        return nibbles[i];
    }
    0
}

// Puts a nibble at a place, the high one of a byte first; past the end nothing is put.
fn put_nibble(nibble: u8, bytes: &mut [u8], at: usize) -> usize {
    if at < 2 * MOST {
        let i = at / 2;
        if i < bytes.len() {
            bytes[i] = joined(bytes[i], nibble, at % 2);
            return at + 1;
        }
    }
    at
}

// A byte with another high nibble and a low one of 0; or, at an odd place, with another low one.
fn joined(byte: u8, nibble: u8, odd: usize) -> u8 {
    if odd == 0 {
        return nibble % 16 * 16;
    }
    byte / 16 * 16 + nibble % 16
}
