// The bytes of an 8-wire bus run over as nibbles, the high one of each first; and whether a reader passes its own test.
//
// In: a reader's head with its body lent, bytes, a place among their nibbles, and a lent line buffer. Out: what a run over the nibbles from
// that place on gives (paper 02, A5). Refused as a run refuses, 11 and 12, before anything is taken; never 10. Cost: linear in the nibbles
// taken; some bytes past the answer are taken apart as well, no more than a portion's.
//
// Bytes are taken apart portion by portion, and between portions they are taken in blocks as they are, where no mark can end in them: a mark's
// F F F F 0 0 has, at either phase, a byte FF and a byte below 16 two further on. There each nibble only leaves the window and goes to its place: a
// block is put into the body, its bytes shifted by a nibble at an odd phase, or past the body passed over. With it `list` takes about half the time on
// clean lines, and an eighth on a bus at rest and on noise.

#![tactic(auto)]

ghost use Rattle.std.specs.Prelude.{◌≡◌, true, ◌&&◌, not, List, ℕ, ◌+◌, ◌*◌, ◌/◌, ◌%◌, ◌≤◌, ◌<◌, min, ltb, length, get_or};
ghost use Rattle.profile.specs.Profile.{longest};
ghost use Rattle.reader_head.specs.Head.{count_stop, passes};
ghost use Rattle.reader_laws.specs.Passing.{Byte};
ghost use Rattle.run_ahead.specs.Ahead.{past_body};
ghost use Rattle.run.specs.Run.{lent_run_of};
ghost use Rattle.run.specs.Gives.{LentRunGives};
ghost use Rattle.stream.specs.Answers.{is_answer};
ghost use Rattle.stream.specs.Written.{nibbles};
ghost use Rattle.capture_bytes.specs.Packed.{byte_from, window_from, packed_into, NoneBegun, NoneBegins, AllNull, Quiet, LeadsOn, Skips};
ghost use Rattle.capture_bytes.specs.Unpacked.{fitting, unpacked, portion, run_from};

use period::Nibbles;
use profile::Profile;
use reader_head::Head;
use run::RunStepped;
use run_ahead::Reached;
use stream::{Answer, Mark};

// Runs over the nibbles of bytes from a place on, which is counted in nibbles, up to the first answer or their end.
pub fn run(h: Head, body: &mut [u8], bytes: &[u8], from: usize, line: &mut [u8]) -> RunStepped
    ensures { LentRunGives h.profile (run_from h body.old bytes.now from (length line.old)) result body.new line.old line.new }
{
    code_is_byte(h);
    let mut head = h;
    let mut at = from;
    let mut most = FIRST;
    // Not a for: each turn goes on by what the run and the skip took.
    loop {
        let end = lesser(bytes.len(), at / 2 + most);
        let t = run_portion(head, body, bytes, at, end, line);
        let after = t.head;
        let answer = t.answer;
        at += t.taken;
        if goes_on(answer, at, bytes.len()) {
            let s = skip(after, body, bytes, at, line.len());
            most = portion_size(at, s.at);
            head = s.head;
            at = s.at;
        } else {
            return RunStepped {
                head: after,
                answer,
                taken: at - from,
            };
        }
    }
}

// Takes bytes many at a time from a place on, in blocks, as far as no mark can end in them. Nothing is taken before a text's body, where the reader
// does not show the nibbles before the place, and where a run would be refused.
fn skip(h: Head, body: &mut [u8], bytes: &[u8], at: usize, room: usize) -> Reached
    ensures { Skips h body.old bytes.now at room result body.new }
{
    if h.count < BODY {
        return Reached { head: h, at };
    }
    if body.len() != Profile::LONGEST {
        return Reached { head: h, at };
    }
    let profile = h.profile;
    if room < profile.body_length() {
        return Reached { head: h, at };
    }
    if is_sound(h) {
        return skip_sound(h, body, bytes, at);
    }
    Reached { head: h, at }
}

// The count of a text's nibbles from which its body's bytes leave the window, and from which none is left to come.
const BODY: u32 = 14;

const PAST: u32 = BODY + 2 * Profile::LONGEST as u32;

// The same of a reader that passes its own test. Within the body bytes are taken from an even count on; at an odd one a nibble goes before.
fn skip_sound(h: Head, body: &mut [u8], bytes: &[u8], at: usize) -> Reached
    requires { (14 ≤ h.count) × (length body.old ≡ longest) × (passes h ≡ true) }
    ensures { LeadsOn (nibbles bytes.now) h body.old at result.head body.new result.at }
{
    if PAST <= h.count {
        return skip_past(h, bytes, at);
    }
    if h.count % 2 == 0 {
        return skip_within(h, body, bytes, at);
    }
    if bytes.len() <= at / 2 {
        return Reached { head: h, at };
    }
    let nibble = nibble_at(bytes, at);
    if reader_head::is_mark(reader_head::slide(h.window, nibble)) {
        return Reached { head: h, at };
    }
    reader_head::leave_body(h, body);
    skip_within(reader_head::shift(h, nibble), body, bytes, at + 1)
}

// Past a text's body: of bytes there nothing is kept.
fn skip_past(h: Head, bytes: &[u8], at: usize) -> Reached
    requires { (past_body ≤ h.count) × (h.count ≤ count_stop) }
    ensures { (body : List ℕ) → LeadsOn (nibbles bytes.now) h body at result.head body result.at }
{
    let n = quiet_bytes(h, bytes, at, MOST);
    if n == 0 {
        return Reached { head: h, at };
    }
    let profile = h.profile;
    let mark = h.at;
    let kept = h.kept;
    let count = lesser(COUNT_STOP, h.count as usize + 2 * n) as u32;
    let window = word(bytes, at / 2 - 4 + n, at % 2);
    let next = at + 2 * n;
    let head = Head {
        profile,
        at: mark,
        count,
        window,
        kept,
    };
    Reached { head, at: next }
}

// How many bytes past a body are taken at once.
const MOST: usize = 32768;

// Where the count of a text's nibbles stops.
const COUNT_STOP: usize = Nibbles::MOST as usize + reader_head::WINDOW as usize;

// Within a text's body, at an even count: the bytes that leave the window go into the body as they are.
fn skip_within(h: Head, body: &mut [u8], bytes: &[u8], at: usize) -> Reached
    requires { (14 ≤ h.count) × (h.count % 2 ≡ 0) × (h.count ≤ past_body) × (length body.old ≡ longest) }
    ensures { LeadsOn (nibbles bytes.now) h body.old at result.head body.new result.at }
{
    let place = ((h.count - BODY) / 2) as usize;
    let n = quiet_bytes(h, bytes, at, Profile::LONGEST - place);
    if n == 0 {
        return Reached { head: h, at };
    }
    let first = at / 2 - 4;
    copy(bytes, first, at % 2, body, place, n);
    let profile = h.profile;
    let mark = h.at;
    let kept = h.kept;
    let count = BODY + 2 * (place + n) as u32;
    let window = word(bytes, first + n, at % 2);
    let next = at + 2 * n;
    let head = Head {
        profile,
        at: mark,
        count,
        window,
        kept,
    };
    Reached { head, at: next }
}

// How many bytes from a place on, in blocks and up to so many, change nothing but the window, the count and the body.
fn quiet_bytes(h: Head, bytes: &[u8], at: usize, most: usize) -> usize
    ensures { (result ≤ most) × (0 < result → Quiet h (nibbles bytes.now) at result) }
{
    if at < 8 {
        return 0;
    }
    let i = at / 2;
    if bytes.len() <= i {
        return 0;
    }
    let odd = at % 2;
    if h.window != word(bytes, i - 4, odd) {
        return 0;
    }
    let most = lesser(bytes.len() - i - 1, most);
    let kept = h.kept;
    if kept.stray {
        if 0 < may_begin(bytes[i - 3], bytes[i - 1]) {
            return 0;
        }
        return far_bytes(bytes, i + odd - 3, most);
    }
    if is_null(bytes, i - 4, 5, 5) {
        return null_bytes(bytes, i + odd, most);
    }
    0
}

// How many bytes from a place on, in blocks and up to so many, begin no mark.
fn far_bytes(bytes: &[u8], i: usize, most: usize) -> usize
    requires { i + most + 2 ≤ length bytes.now }
    ensures { (result ≤ most) × NoneBegins bytes.now i result }
{
    let mut n: usize = 0;
    let mut block = WIDE;
    // Not a for: a block that holds no mark's start is followed by another of its size, and else a smaller one is tried.
    while NARROW <= block {
        if is_far(bytes, i + n, block, most - n) {
            n += block;
        } else {
            block /= 4;
        }
    }
    n
}

// The bytes of a block: many, and fewer where those are not such or not so many. That the number varies is why the loops over them are compiled to
// vectors: over 16 at a time they were three times as slow.
const WIDE: usize = 64;

const NARROW: usize = 16;

// Whether there are so many bytes from a place on, and begin no mark.
fn is_far(bytes: &[u8], i: usize, n: usize, most: usize) -> bool
    requires { (i + most + 2 ≤ length bytes.now) × (n ≤ 64) }
    ensures { result ≡ true → (n ≤ most) × NoneBegins bytes.now i n }
{
    n <= most && beginnings(bytes, i, n) == 0
}

// At how many of so many bytes from a place on a mark may begin.
fn beginnings(bytes: &[u8], i: usize, n: usize) -> u8
    requires { (i + n + 2 ≤ length bytes.now) × (n ≤ 64) }
    ensures { result ≡ 0 → NoneBegins bytes.now i n }
{
    let mut count: u8 = 0;
    for k in 0..n {
        count += may_begin(bytes[i + k], bytes[i + k + 2]);
    }
    count
}

// 1 where a mark may begin at a byte, by that and the one two further on.
fn may_begin(first: u8, third: u8) -> u8
    ensures { (result ≤ 1) × (result ≡ 0 → NoneBegun first third) }
{
    if first == 255 {
        if third < 16 {
            return 1;
        }
    }
    0
}

// How many bytes from a place on, in blocks and up to so many, are FF.
fn null_bytes(bytes: &[u8], i: usize, most: usize) -> usize
    requires { i + most ≤ length bytes.now }
    ensures { (result ≤ most) × AllNull bytes.now i result }
{
    let mut n: usize = 0;
    let mut block = WIDE;
    // Not a for: a block of FF is followed by another of its size, and else a smaller one is tried.
    while NARROW <= block {
        if is_null(bytes, i + n, block, most - n) {
            n += block;
        } else {
            block /= 4;
        }
    }
    n
}

// Whether there are so many bytes from a place on, and are FF.
fn is_null(bytes: &[u8], i: usize, n: usize, most: usize) -> bool
    requires { (i + most ≤ length bytes.now) × (n ≤ 64) }
    ensures { result ≡ true → (n ≤ most) × AllNull bytes.now i n }
{
    n <= most && strays(bytes, i, n) == 0
}

// How many of so many bytes from a place on are not FF.
fn strays(bytes: &[u8], i: usize, n: usize) -> u8
    requires { (i + n ≤ length bytes.now) × (n ≤ 64) }
    ensures { result ≡ 0 → AllNull bytes.now i n }
{
    let mut count: u8 = 0;
    for byte in &bytes[i..i + n] {
        count += stray(*byte);
    }
    count
}

fn stray(byte: u8) -> u8
    ensures { (result ≤ 1) × (result ≡ 0 → byte ≡ 255) }
{
    if byte == 255 {
        return 0;
    }
    1
}

// The nibble at a place.
fn nibble_at(bytes: &[u8], at: usize) -> u8
    requires { at / 2 < length bytes.now }
    ensures { result ≡ get_or (nibbles bytes.now) at 0 }
{
    if at % 2 == 0 {
        return bytes[at / 2] / 16;
    }
    bytes[at / 2] % 16
}

// The byte of the two nibbles from a byte's high one on, or from its low one.
fn byte_from(bytes: &[u8], i: usize, odd: usize) -> u8
    requires { (i + odd < length bytes.now) × (odd ≤ 1) }
    ensures { result ≡ byte_from (nibbles bytes.now) (2 * i + odd) }
{
    if odd == 0 {
        return bytes[i];
    }
    bytes[i] % 16 * 16 + bytes[i + 1] / 16
}

// Four of them as a window.
fn word(bytes: &[u8], i: usize, odd: usize) -> u32
    requires { (i + odd + 3 < length bytes.now) × (odd ≤ 1) }
    ensures { result ≡ window_from (nibbles bytes.now) (2 * i + odd) }
{
    let w = with_byte(0, byte_from(bytes, i, odd));
    let w = with_byte(w, byte_from(bytes, i + 1, odd));
    let w = with_byte(w, byte_from(bytes, i + 2, odd));
    with_byte(w, byte_from(bytes, i + 3, odd))
}

fn with_byte(w: u32, byte: u8) -> u32
    requires { w < 16777216 }
    ensures { (result ≡ 256 * w + byte) × (byte < 256) }
{
    256 * w + byte as u32
}

// Puts so many of them into a body, from its place j on.
fn copy(bytes: &[u8], i: usize, odd: usize, body: &mut [u8], j: usize, n: usize)
    requires { (i + odd + n ≤ length bytes.now) × (odd ≤ 1) × (j + n ≤ length body.old) }
    ensures { body.new ≡ packed_into body.old j (nibbles bytes.now) (2 * i + odd) n }
{
    for k in 0..n {
        body[j + k] = byte_from(bytes, i + k, odd);
    }
}

// How many bytes are taken apart next: few where others were taken in blocks, since a mark may be near.
fn portion_size(at: usize, next: usize) -> usize
    ensures { (0 < result) × (result ≤ 64) }
{
    if at < next {
        return SECOND;
    }
    PORTION
}

// Whether a reader passes its own test. That its mark's code is a byte is a fact of its type.
pub fn is_sound(head: Head) -> bool
    ensures { (result ≡ passes head) × Byte head.at }
{
    let passed = head.passes();
    let at = head.at;
    match at {
        Mark::NoMark => passed,
        Mark::Open(_, _code) => passed,
    }
}

// Nothing is done: that a mark's code is a byte is a fact of its type.
fn code_is_byte(head: Head)
    ensures { Byte head.at }
{
    let at = head.at;
    match at {
        Mark::NoMark => {}
        Mark::Open(_, _code) => {}
    }
}

// How many bytes are taken apart at once: few at first, since the next answer may be near.
const FIRST: usize = 16;

const SECOND: usize = 32;

const PORTION: usize = 64;

// Whether there is no answer yet, and a nibble left at a place.
fn goes_on(answer: Answer, at: usize, bytes: usize) -> bool
    ensures { result ≡ (not (is_answer answer) && ltb (at / 2) bytes) }
{
    match answer {
        Answer::Nothing => at / 2 < bytes,
        Answer::Line(_) => false,
        Answer::Gap(_) => false,
        Answer::Refused(_) => false,
    }
}

// Runs over the nibbles of bytes from a place on, up to the end of the byte before another. A run is called here alone, so that it is compiled
// into its place: called at three it was about 1.1 times as slow.
fn run_portion(
    h: Head,
    body: &mut [u8],
    bytes: &[u8],
    at: usize,
    end: usize,
    line: &mut [u8],
) -> RunStepped
    requires { (end ≤ length bytes.now) × (end ≤ at / 2 + 64) }
    ensures { LentRunGives h.profile (lent_run_of h body.old (portion bytes.now at end) (length line.old)) result body.new line.old line.new }
{
    let first = lesser(at / 2, end);
    let mut nibbles = [0u8; 2 * PORTION];
    let n = 2 * unpack(&bytes[first..end], &mut nibbles);
    let all: &[u8] = &nibbles[..n];
    let skipped = lesser(at % 2, n);
    run::run_lent(h, body, &all[skipped..], line)
}

// Puts the nibbles of bytes at the front of a buffer, and gives how many bytes it had room for.
pub fn unpack(bytes: &[u8], to: &mut [u8]) -> usize
    ensures { (result ≡ fitting (length bytes.now) (length to.old)) × (to.new ≡ unpacked bytes.now to.old result) }
{
    let n = lesser(bytes.len(), to.len() / 2);
    for i in 0..n {
        let b = bytes[i];
        to[2 * i] = b / 16;
        to[2 * i + 1] = b % 16;
    }
    n
}

fn lesser(a: usize, b: usize) -> usize
    ensures { result ≡ min a b }
{
    if a < b {
        return a;
    }
    b
}
