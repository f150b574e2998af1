// The text of two-wire messages: bytes in hex, each of two digits, one space between two.
//
// In: a sensor's state and a message's line, without its newline. Out: the text for it, with its newline, at the front of the lent buffer, its
// length, and the state after it. `WRITE 32 1 ok` names the index and the count of data bytes, `REFUSED 27, read data differs` the refusal.
// A message of more than 256 bytes is refused with 12. Cost: linear in the line. And the other way: a pair's message in hex.

#![tactic(auto)]

ghost use Rattle.std.specs.Prelude.{◌≡◌, ◌/◌, ◌<◌, length};
ghost use Rattle.std.proofs.lemmas.List.Edits.{sets};
ghost use Rattle.text.specs.Pages.{Writes};
ghost use Rattle.two_wire.specs.Messages.{message_on, message};
ghost use Rattle.two_wire_text.specs.Hex.{hex_text, digit_of, char_fits, is_message, byte_of, bytes_of};
ghost use Rattle.two_wire_text.specs.Explained.{message_text, message_sensor, TellsIn, TellsOutcome};

use refusal::Refusal;
use text::Page;
use two_wire::Sensor;

// The state after a line, and the length of its text.
#[derive(Clone, Copy)]
pub struct MessageTold {
    pub sensor: Sensor,
    pub length: usize,
}

// The bytes that a message may have here, three characters each in its line.
const LONGEST: usize = 256;

// The text for a message's line, as far as the buffer has room, and the state after it.
pub fn explain(sensor: Sensor, line: &[u8], out: &mut [u8]) -> MessageTold
    ensures { TellsIn (message_sensor sensor line.now) (message_text sensor line.now) out.old out.new result }
{
    if LONGEST <= line.len() / 3 {
        let length = two_wire_words::put_refused(Refusal::NO_ROOM, out);
        return MessageTold { sensor, length };
    }
    let mut bytes = [0u8; 256];
    let n = decode(line, &mut bytes);
    read_message(sensor, &bytes[..n], out)
}

fn read_message(sensor: Sensor, bytes: &[u8], out: &mut [u8]) -> MessageTold
    ensures { TellsOutcome (message_on sensor bytes.now) sensor bytes.now out.old out.new result }
{
    let seen = sensor.read(bytes);
    let after = seen.sensor;
    let answered = seen.answer;
    match answered {
        Ok(()) => {
            let length = two_wire_words::put_accepted(bytes, out);
            MessageTold {
                sensor: after,
                length,
            }
        }
        Err(refusal) => {
            let length = two_wire_words::put_refused(refusal, out);
            MessageTold {
                sensor: after,
                length,
            }
        }
    }
}

// Reading text.

// Whether a line is a message's.
pub fn is_message(line: &[u8]) -> bool
    ensures { result ≡ is_message line.now }
{
    if line.len() % 3 != 2 {
        return false;
    }
    for (i, c) in line.iter().enumerate() {
        if !char_fits(i, *c) {
            return false;
        }
    }
    true
}

// Whether a character may stand at a place of a message's line.
fn char_fits(place: usize, c: u8) -> bool
    ensures { result ≡ char_fits place c }
{
    if place % 3 == 2 {
        return c == b' ';
    }
    digit(c) < 16
}

// The bytes of a message's line, and how many they are.
fn decode(line: &[u8], bytes: &mut [u8; 256]) -> usize
    requires { length line.now / 3 < 256 }
    ensures { (result ≡ length (bytes_of line.now)) × (bytes.new ≡ sets bytes.old 0 (bytes_of line.now)) }
{
    let count = (line.len() + 1) / 3;
    for i in 0..count {
        bytes[i] = byte_of(line[3 * i], line[3 * i + 1]);
    }
    count
}

// The byte of two digits.
fn byte_of(a: u8, b: u8) -> u8
    ensures { result ≡ byte_of a b }
{
    let high = digit(a) as u16;
    let low = digit(b) as u16;
    ((16 * high + low) % 256) as u8
}

// The number of a hex digit; 16 where it is none.
fn digit(c: u8) -> u8
    ensures { result ≡ digit_of c }
{
    if c < b'0' {
        return 16;
    }
    if c <= b'9' {
        return c - b'0';
    }
    if c < b'A' {
        return 16;
    }
    if c <= b'F' {
        return c - 55;
    }
    if c < b'a' {
        return 16;
    }
    if c <= b'f' {
        return c - 87;
    }
    16
}

// Writing text.

// The message of a pair in hex, on a line of its own.
pub fn put_message(index: u8, value: u8, page: &mut Page<'_>)
    ensures { Writes (hex_text (message index value)) page.old page.new }
{
    page.put_hex(two_wire::WRITE_ADDRESS);
    page.put(b" ");
    page.put_hex(index);
    page.put(b" ");
    page.put_hex(value);
    page.put(b"\n");
}
