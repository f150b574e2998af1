// Why a mark is answered as it is, in words (paper 02, A9): one line for the person at the kerb.
//
// In: a mark of a capture, with its place; and the capture's bytes from the one that it begins in, through the next mark's code or to the end.
// Out: the line's bytes at the front of the buffer, and how many they are. The line tells the mark's number and place, what the mark is and why
// it is refused, and the bytes around the bad place. Nothing is refused: a buffer of fewer than ROOM bytes stays as it was, and the count is 0.
// The first MOST bytes are looked at, and what is longer is told as longer, with the reader's own number. Cost: linear in the bytes looked at.

#![tactic(auto)]

ghost use Rattle.std.specs.Prelude.{◌≡◌, ◌≤◌, ◌<◌, min, length, get_or};
ghost use Rattle.profile.specs.Profile.{profile_number};
ghost use Rattle.text.specs.Pages.{Writes};
ghost use Rattle.text.specs.Put.{AtFront};
ghost use Rattle.why_line.specs.ReasonText.{nibbles_before, reason_of_run, reason_in, code_in, mark_words, bad_place, spaced_hex, hexes, around_bad, around_words, mark_line, line_if_room};

use mark_finder::Located;
use profile::Profile;
use reason::Reason;
use text::Page;

// The bytes of a mark that are looked at.
pub const MOST: usize = 1024;

// The bytes of a mark that are worth keeping: those looked at, and one more, which tells that there are more.
pub const KEPT: usize = MOST + 1;

// The bytes that no line exceeds.
pub const ROOM: usize = 256;

// Puts the line on a mark at the front of a buffer.
pub fn tell(mark: Located, bytes: &[u8], out: &mut [u8]) -> usize
    ensures { AtFront (line_if_room (length out.old) (mark_line mark bytes.now)) result out.old out.new }
{
    if out.len() < ROOM {
        return 0;
    }
    let mut page = Page::new(out);
    put_all(mark, bytes, &mut page);
    page.used
}

fn put_all(mark: Located, bytes: &[u8], page: &mut Page<'_>)
    ensures { Writes (mark_line mark bytes.now) page.old page.new }
{
    let why = reason_in(mark, bytes);
    let code = code_in(mark.low, bytes);
    let cut = MOST < bytes.len();
    put_mark(mark.number, mark.place, page);
    why_words::put_explained(cut, mark.refusal, code, why, page);
    let profile = mark.profile;
    let bad = bad_place(profile, why);
    put_around(bytes, mark.low, bad, page);
    page.put(b"\n");
}

// The reason. A good mark that goes on beyond what is looked at is an end of line, since no line is that long.
fn reason_in(mark: Located, bytes: &[u8]) -> Reason
    ensures { result ≡ reason_in mark bytes.now }
{
    if bytes.len() <= MOST {
        return reason_of_run(mark, bytes);
    }
    if mark.refusal == 0 {
        return Reason::GoodGap;
    }
    reason_of_run(mark, bytes)
}

// The reason, of the mark's nibbles that are looked at.
fn reason_of_run(mark: Located, bytes: &[u8]) -> Reason
    ensures { result ≡ reason_of_run mark bytes.now }
{
    let mut nibbles = [0u8; 2 * MOST];
    let n = 2 * capture_bytes::unpack(bytes, &mut nibbles);
    let all: &[u8] = &nibbles[..n];
    let from = lesser(nibbles_before(mark.low), n);
    let profile = mark.profile;
    reason::explain(number_of(profile), mark.before, &all[from..])
}

// The paper's number of a profile.
fn number_of(profile: Profile) -> u8
    ensures { result ≡ profile_number profile }
{
    match profile {
        Profile::VV5404 => 0,
        Profile::VV5300 => 1,
    }
}

// The mark's code byte: it stands after F F F F 0 0.
fn code_in(low: bool, bytes: &[u8]) -> u8
    ensures { result ≡ code_in low bytes.now }
{
    if low {
        return byte_in(bytes, 3) % 16 * 16 + byte_in(bytes, 4) / 16;
    }
    byte_in(bytes, 3)
}

// The byte at a place, 0 where there is none.
fn byte_in(bytes: &[u8], i: usize) -> u8
    ensures { result ≡ get_or bytes.now i 0 }
{
    if i < bytes.len() {
        return bytes[i];
    }
    0
}

// The nibbles of the first byte that stand before the mark.
fn nibbles_before(low: bool) -> usize
    ensures { (result ≡ nibbles_before low) × (result ≤ 1) }
{
    if low {
        return 1;
    }
    0
}

fn lesser(a: usize, b: usize) -> usize
    ensures { result ≡ min a b }
{
    if a < b {
        return a;
    }
    b
}

fn put_mark(number: u64, place: u64, page: &mut Page<'_>)
    ensures { Writes (mark_words number place) page.old page.new }
{
    page.put(b"mark ");
    page.put_decimal(number);
    page.put(b", byte ");
    page.put_decimal(place);
    page.put(b": ");
}

// The bad place, in nibbles from the mark's first; 0 where there is none.
fn bad_place(profile: Profile, why: Reason) -> usize
    ensures { (result ≡ bad_place profile why) × (result ≤ 8192) }
{
    match why {
        Reason::GoodLine => 0,
        Reason::GoodGap => 0,
        Reason::DamagedCode(_, _) => CODE,
        Reason::ReservedCode => CODE,
        Reason::UnfinishedLine => 0,
        Reason::WrongLength(found, _) => CODE + lesser(found, 2 * MOST),
        Reason::BadNumber(place, _) => NUMBER + 2 * lesser(place, 2 * MOST),
        Reason::BadBody(place, _) => BODY + 2 * lesser(place, 2 * MOST),
        Reason::NoEndOfLine(_) => BODY + 2 * profile.body_length() + CODE,
        Reason::EndWithoutLine => CODE,
        Reason::BadGap(place, _) => NUMBER + lesser(place, 2 * MOST),
        Reason::ShortGap(length) => NUMBER + lesser(length, 2 * MOST),
        Reason::Refused(_) => 0,
    }
}

// The places of a mark's code, of what follows it, a number or a gap, and of a body, in nibbles.
const CODE: usize = 6;

const NUMBER: usize = 8;

const BODY: usize = 12;

// The bytes around the bad place, where there is one.
fn put_around(bytes: &[u8], low: bool, bad: usize, page: &mut Page<'_>)
    requires { bad ≤ 8192 }
    ensures { Writes (around_words bytes.now low bad) page.old page.new }
{
    if 0 < bad {
        let n = nibbles_before(low) + bad;
        if n / 2 < bytes.len() {
            page.put(b"; there:");
            put_bytes_around(bytes, n / 2, n % 2, page);
        }
    }
}

// A byte in brackets, with some more, four before these and four after.
fn put_bytes_around(bytes: &[u8], i: usize, more: usize, page: &mut Page<'_>)
    requires { (i < length bytes.now) × (i ≤ 8192) × (more ≤ 1) }
    ensures { Writes (around_bad bytes.now i more) page.old page.new }
{
    let from = i - lesser(i, SHOWN);
    let end = lesser(bytes.len(), i + 1 + more);
    let to = lesser(bytes.len(), end + SHOWN);
    put_bytes(&bytes[from..i], page);
    page.put(b" [");
    page.put_hex(bytes[i]);
    put_bytes(&bytes[i + 1..end], page);
    page.put(b"]");
    put_bytes(&bytes[end..to], page);
}

// The bytes that are shown on either side of a bad one.
const SHOWN: usize = 4;

// Bytes in hex, a space before each.
fn put_bytes(bytes: &[u8], page: &mut Page<'_>)
    ensures { Writes (hexes bytes.now) page.old page.new }
{
    for byte in bytes {
        put_spaced(*byte, page);
    }
}

fn put_spaced(byte: u8, page: &mut Page<'_>)
    ensures { Writes (spaced_hex byte) page.old page.new }
{
    page.put(b" ");
    page.put_hex(byte);
}
