// Texts written on a page, or put into a lent buffer at a place: words, numbers in decimal and bytes in hex, in ASCII.
//
// In: what to put, and a page, or a buffer and a place. Out: its text there, and the place after it. Nothing is refused: where the room ends before
// the text does, the rest of the text is left out, and the place is that end; from a place beyond the end nothing is put, and the place
// stays. So texts put one after another are their concatenation, put at once. Cost: linear in the text.

#![tactic(auto)]

ghost use Rattle.std.specs.Prelude.{◌≡◌, ◌∷◌, [], ◌+◌, ◌%◌, ◌<◌, ◌≤◌, length, take, drop};
ghost use Rattle.text.specs.Text.{digit, decimal, hex_digit, hex_byte};
ghost use Rattle.text.specs.Parts.{is_more};
ghost use Rattle.text.specs.Put.{Puts};
ghost use Rattle.text.specs.Pages.{Opens, Writes};

// The decimal digits of the greatest u64.
const PLACES: usize = 20;

// Room that is lent, and how much of it is written, from its front.
#[derive(Drop)]
pub struct Page<'a> {
    pub room: &'a mut [u8],
    pub used: usize,
}

impl<'a> Page<'a> {
    // Nothing written.
    pub fn new(room: &'a mut [u8]) -> Page<'a>
        ensures { Opens room.entry result }
    {
        Page { room, used: 0 }
    }

    // A text as it is.
    pub fn put(&mut self, text: &[u8])
        ensures { Writes text.now self.old self.new }
    {
        self.used = put(text, self.room, self.used);
    }

    // A number in decimal.
    pub fn put_decimal(&mut self, n: u64)
        ensures { Writes (decimal n) self.old self.new }
    {
        self.used = put_decimal(n, self.room, self.used);
    }

    // A byte in hex, of two digits.
    pub fn put_hex(&mut self, byte: u8)
        ensures { Writes (hex_byte byte) self.old self.new }
    {
        self.used = put_hex(byte, self.room, self.used);
    }
}

// A text as it is.
pub fn put(text: &[u8], out: &mut [u8], at: usize) -> usize
    ensures { Puts out.old at text.now result out.new }
{
    if out.len() <= at {
        return at;
    }
    let n = text.len();
    let room = out.len() - at;
    if n <= room {
        copy(text, n, out, at);
        return at + n;
    }
    copy(text, room, out, at);
    at + room
}

// A number in decimal.
pub fn put_decimal(n: u64, out: &mut [u8], at: usize) -> usize
    ensures { Puts out.old at (decimal n) result out.new }
{
    let mut places = [b'0'; PLACES];
    let first = fill_digits(n, &mut places);
    put(&places[first..], out, at)
}

// A byte in hex, of two digits.
pub fn put_hex(byte: u8, out: &mut [u8], at: usize) -> usize
    ensures { Puts out.old at (hex_byte byte) result out.new }
{
    let next = put_byte(hex_digit(byte / 16), out, at);
    put_byte(hex_digit(byte % 16), out, next)
}

// Puts the first n bytes of a text at a place. Byte after byte: by copy_from_slice an archive for C would need memmove from outside.
fn copy(text: &[u8], n: usize, out: &mut [u8], at: usize)
    requires { (n ≤ length text.now) × (at + n ≤ length out.old) }
    ensures { Puts out.old at (take n text.now) (at + n) out.new }
{
    for i in 0..n {
        out[at + i] = text[i];
    }
}

// Puts the decimal digits of a number at the end of the places, the last one first, and gives the place of the first.
fn fill_digits(n: u64, places: &mut [u8]) -> usize
    requires { length places.old ≡ 20 }
    ensures { (result < 20) × (drop result places.new ≡ decimal n) }
{
    let mut rest = n;
    let mut left = PLACES;
    // Not a for: it ends where the number has no digit more.
    while is_more(left, rest) {
        left -= 1;
        places[left] = last_digit(rest);
        rest /= 10;
    }
    left -= 1;
    places[left] = last_digit(rest);
    left
}

// Whether a number has more digits than one, and places left for them.
fn is_more(left: usize, n: u64) -> bool
    ensures { result ≡ is_more left n }
{
    1 < left && 10 <= n
}

fn last_digit(n: u64) -> u8
    ensures { result ≡ digit (n % 10) }
{
    b'0' + (n % 10) as u8
}

fn hex_digit(n: u8) -> u8
    requires { n < 16 }
    ensures { result ≡ hex_digit n }
{
    if n < 10 {
        return b'0' + n;
    }
    b'a' - 10 + n
}

fn put_byte(byte: u8, out: &mut [u8], at: usize) -> usize
    ensures { Puts out.old at (byte ∷ []) result out.new }
{
    if at < out.len() {
        out[at] = byte;
        return at + 1;
    }
    at
}
