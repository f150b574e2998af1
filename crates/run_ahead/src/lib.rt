// Nibbles of a run taken ahead, in pairs and in blocks, as far as no mark can end in them (paper 02, A5).
//
// In: a reader's head and its lent body, a run of nibbles and a place in it. Out: the head, and the place up to which the nibbles from there are
// taken; the body has their bytes. Nothing is taken at an odd count before the body's end, and where the body is not as long as the longest. Of the
// nibbles that are taken none brings an answer.
//
// A mark that ends at one of the next two nibbles shows in the window before they come: F at its nibbles 5, 4 and 3, counted from the newest,
// 0, and 0 at nibble 1. Where it does not, two nibbles are taken in one turn, and where the count of the text's nibbles is even, the two that
// leave the window are one byte of the text. Past the body no byte is kept, and any count will do.
//
// The window is the run's own last eight nibbles, once so many are taken. Then 32 nibbles are tested at once, in loops that go to their end and so are
// vectorised: where none of their windows shows a mark, what leaves the window is packed into the body, and the window made anew from the last eight.
// Beside pairs alone, a long body takes about a third of the time, and what stands past it as well. Cost: linear in the nibbles taken.

#![tactic(auto)]

ghost use Rattle.std.specs.Prelude.{◌≡◌, List, ◌⊎◌, true, false, ℕ, ◌≤◌, ◌<◌, ◌+◌, ◌*◌, ◌/◌, ◌%◌, length, get_or};
ghost use Rattle.profile.specs.Profile.{longest};
ghost use Rattle.run_ahead.specs.Ahead.{past_body, is_near, ahead_of, AheadGives};
ghost use Rattle.run_ahead.specs.Parts.{LeadsTo, Reaches, UpToPast, is_pair, byte_place, slide_byte, stray_after, stray_kept, byte_kept};
ghost use Rattle.run_ahead.specs.Blocks.{NibblesFrom, Apart, Far, FarOn, window_from, packed_into, later_count};

use mark_text::Kept;
use period::Nibbles;
use profile::Profile;
use reader_head::Head;

// A head after some nibbles of a run, and the place of the next.
#[derive(Clone, Copy)]
pub struct Reached {
    pub head: Head,
    pub at: usize,
}

// Takes nibbles two a turn, as far as no mark can end in them.
pub fn ahead(h: Head, body: &mut [u8], s: &[u8], from: usize) -> Reached
    ensures { AheadGives (ahead_of h body.old s.now from) result body.new }
{
    if body.len() != Profile::LONGEST {
        return Reached { head: h, at: from };
    }
    if s.len() <= from {
        return Reached { head: h, at: from };
    }
    let b = up_to_past(h, body, s, from);
    let past = b.head;
    if past.count < PAST {
        return b;
    }
    let at = b.at;
    past_body(past, s, at)
}

// The same up to the end of the body: nothing from there on, and nothing at an odd count.
fn up_to_past(h: Head, body: &mut [u8], s: &[u8], from: usize) -> Reached
    requires { (from ≤ length s.now) × (length body.old ≡ longest) }
    ensures { UpToPast s.now h body.old from result body.new }
{
    if PAST <= h.count {
        return Reached { head: h, at: from };
    }
    if h.count % 2 == 1 {
        return Reached { head: h, at: from };
    }
    let a = before_body(h, s, from);
    let begun = a.head;
    if begun.count < BODY {
        return a;
    }
    let at = a.at;
    in_body(begun, body, s, at)
}

// The count of a text's nibbles from which its body's bytes leave the window, and from which none is left to come.
const BODY: u32 = 14;

const PAST: u32 = BODY + 2 * Profile::LONGEST as u32;

// The count at which a text's nibbles are no longer counted.
const COUNT_STOP: u32 = Nibbles::MOST as u32 + 8;

// The nibbles of a block; and how many pairs are taken before the first is tried, so that where marks are dense none is tried in vain.
const BLOCK: usize = 32;

const FEW: usize = 6;

// The code of a text, and the two bytes after it.
fn before_body(h: Head, s: &[u8], from: usize) -> Reached
    requires { (from ≤ length s.now) × (h.count % 2 ≡ 0) }
    ensures { ((body : List ℕ) → Reaches 14 s.now h body from result body) × (result.head.count % 2 ≡ 0) }
{
    if BODY <= h.count {
        return Reached { head: h, at: from };
    }
    let end = sooner(s.len(), from, (BODY - h.count) as usize);
    let mut count = h.count;
    let mut window = h.window;
    let mut kept = h.kept;
    let mut i = from;
    // Not a for: each turn takes a pair, until none stands there.
    while is_pair(window, s, i, end) {
        kept = keep_byte(h.profile, count, top_byte(window), kept);
        window = slide_byte(window, s, i);
        count += 2;
        i += 2;
    }
    let head = Head {
        count,
        window,
        kept,
        ..h
    };
    Reached { head, at: i }
}

// The bytes of a text's body, in pairs; and after a few, and again after each block that can't be taken, in blocks.
fn in_body(h: Head, body: &mut [u8], s: &[u8], from: usize) -> Reached
    requires { (from ≤ length s.now) × (h.count % 2 ≡ 0) × (length body.old ≡ longest) × (14 ≤ h.count) }
    ensures { Reaches past_body s.now h body.old from result body.new }
{
    if PAST <= h.count {
        return Reached { head: h, at: from };
    }
    let place = ((h.count - BODY) / 2) as usize;
    let end = sooner(s.len(), from, 2 * (Profile::LONGEST - place));
    let mut window = h.window;
    let mut stray = h.kept.stray;
    let mut j = place;
    let mut i = from;
    let mut wait = FEW;
    // Not a for: each turn takes a pair, and some take blocks, until no pair stands there.
    while is_pair(window, s, i, end) {
        let b = top_byte(window);
        body[j] = b;
        stray = stray_after(stray, b);
        window = slide_byte(window, s, i);
        j += 1;
        i += 2;
        wait -= 1;
        if wait == 0 {
            wait = BLOCK / 2;
            let n = far_pairs(window, stray, s, i, end);
            if 0 < n {
                pack(s, i - 8, body, j, n);
                j += n;
                i += 2 * n;
                window = window_from(s, i - 8);
            }
        }
    }
    let kept = Kept { stray, ..h.kept };
    let count = BODY + 2 * j as u32;
    let head = Head {
        count,
        window,
        kept,
        ..h
    };
    Reached { head, at: i }
}

// What stands past a text's body, in the same way.
fn past_body(h: Head, s: &[u8], from: usize) -> Reached
    requires { (from ≤ length s.now) × (past_body ≤ h.count) }
    ensures { (body : List ℕ) → LeadsTo s.now h body from result.head body result.at }
{
    let end = s.len();
    let mut count = h.count;
    let mut window = h.window;
    let mut stray = h.kept.stray;
    let mut i = from;
    let mut wait = FEW;
    // Not a for: each turn takes a pair, and some take blocks, until no pair stands there.
    while is_pair(window, s, i, end) {
        stray = stray_after(stray, top_byte(window));
        window = slide_byte(window, s, i);
        count = reader_head::next_count(reader_head::next_count(count));
        i += 2;
        wait -= 1;
        if wait == 0 {
            wait = BLOCK / 2;
            let n = far_pairs(window, stray, s, i, end);
            if 0 < n {
                count = later_count(count, n);
                i += 2 * n;
                window = window_from(s, i - 8);
            }
        }
    }
    let kept = Kept { stray, ..h.kept };
    let head = Head {
        count,
        window,
        kept,
        ..h
    };
    Reached { head, at: i }
}

// The count of a text's nibbles with so many pairs more, held at its stop.
fn later_count(count: u32, pairs: usize) -> u32
    requires { 2 * pairs < 18446744073709551616 }
    ensures { result ≡ later_count pairs count }
{
    if COUNT_STOP <= count {
        return count;
    }
    if (COUNT_STOP - count) as usize <= 2 * pairs {
        return COUNT_STOP;
    }
    count + 2 * pairs as u32
}

// How many pairs from a place on are taken in blocks, up to an end: none where the window does not show the eight nibbles before.
fn far_pairs(window: u32, stray: bool, s: &[u8], from: usize, end: usize) -> usize
    requires { (end ≤ length s.now) × (from ≤ end) }
    ensures { (0 < result → FarOn window stray s.now from end result) × (result % 16 ≡ 0) }
{
    if from < 8 {
        return 0;
    }
    if end - from < BLOCK {
        return 0;
    }
    if 15 < most_of(s, from - 8, 8) {
        return 0;
    }
    if window != window_from(s, from - 8) {
        return 0;
    }
    let blocks = (end - from) / BLOCK;
    for block in 0..blocks {
        if !is_far(stray, s, from - 8 + BLOCK * block) {
            return BLOCK / 2 * block;
        }
    }
    BLOCK / 2 * blocks
}

// Whether a block can be taken behind the eight nibbles at a place: it has nibbles alone, no mark can end in it, and what leaves the window meanwhile
// is nothing but F, or a stray nibble is noted already.
fn is_far(stray: bool, s: &[u8], k: usize) -> bool
    requires { (k + 40 ≤ length s.now) × NibblesFrom s.now k 8 }
    ensures { result ≡ true → Far stray s.now k 32 }
{
    if 15 < most_of(s, k + 8, BLOCK) {
        return false;
    }
    if least_gap(s, k) == 0 {
        return false;
    }
    if stray {
        return true;
    }
    if 0 < most_off(s, k) {
        return false;
    }
    true
}

// A number that none of so many inputs from a place on is above.
fn most_of(s: &[u8], i: usize, n: usize) -> u8
    requires { i + n ≤ length s.now }
    ensures { (x : ℕ) → i ≤ x → x < i + n → get_or s.now x 0 ≤ result }
{
    let mut most: u8 = 0;
    for x in &s[i..i + n] {
        most = most.max(*x);
    }
    most
}

// A number that none of the nibbles of a block is farther from F.
fn most_off(s: &[u8], i: usize) -> u8
    requires { (i + 32 ≤ length s.now) × NibblesFrom s.now i 32 }
    ensures { (x : ℕ) → i ≤ x → x < i + 32 → 15 ≤ get_or s.now x 0 + result }
{
    let mut most: u8 = 0;
    for x in &s[i..i + BLOCK] {
        most = most.max(15 - *x);
    }
    most
}

// A number that none of the windows of a block is nearer to one before a mark.
fn least_gap(s: &[u8], i: usize) -> u8
    requires { (i + 40 ≤ length s.now) × NibblesFrom s.now i 40 }
    ensures { (x : ℕ) → i ≤ x → x < i + 32 → Apart result s.now x }
{
    let mut least: u8 = 255;
    for k in i..i + BLOCK {
        least = least.min(gap(s[k + 2], s[k + 3], s[k + 4], s[k + 6]));
    }
    least
}

// How far three nibbles and one more are from F, F, F and 0.
fn gap(a: u8, b: u8, c: u8, d: u8) -> u8
    requires { (a < 16) × (b < 16) × (c < 16) × (d < 16) }
    ensures { a + b + c + result ≡ 45 + d }
{
    45 + d - (a + b + c)
}

// Puts so many bytes of the run, from a place on, into a body, from its place j on, in blocks.
fn pack(s: &[u8], i: usize, body: &mut [u8], j: usize, n: usize)
    requires { (i + 2 * n ≤ length s.now) × (j + n ≤ length body.old) × NibblesFrom s.now i (2 * n) × (n % 16 ≡ 0) }
    ensures { body.new ≡ packed_into body.old j s.now i n }
{
    for block in 0..n / 16 {
        let k = 16 * block;
        pack_block(s, i + 2 * k, body, j + k);
    }
}

// One block: first into an array of its own, since a body might be the run itself, for all that the compiler knows.
fn pack_block(s: &[u8], i: usize, body: &mut [u8], j: usize)
    requires { (i + 32 ≤ length s.now) × (j + 16 ≤ length body.old) × NibblesFrom s.now i 32 }
    ensures { body.new ≡ packed_into body.old j s.now i 16 }
{
    let mut to = [0u8; 16];
    for k in 0..16 {
        to[k] = 16 * s[i + 2 * k] + s[i + 2 * k + 1];
    }
    body[j..j + 16].copy_from_slice(&to);
}

// The eight nibbles from a place on, as a window.
fn window_from(s: &[u8], i: usize) -> u32
    requires { (i + 8 ≤ length s.now) × NibblesFrom s.now i 8 }
    ensures { result ≡ window_from s.now i }
{
    let w = slide_byte(0, s, i);
    let w = slide_byte(w, s, i + 2);
    let w = slide_byte(w, s, i + 4);
    slide_byte(w, s, i + 6)
}

// Whether two nibbles stand at a place, before the end, in which no mark can end.
#[tactic(auto, unfolding(crate::specs::Parts::is_pair))]
fn is_pair(window: u32, s: &[u8], i: usize, end: usize) -> bool
    requires { (end ≤ length s.now) × (i ≤ end) }
    ensures { result ≡ is_pair window s.now i end }
{
    2 <= end - i && !is_near(window) && s[i] <= 15 && s[i + 1] <= 15
}

// Whether a mark may end at one of the next two nibbles.
#[tactic(auto, unfolding(crate::specs::Ahead::is_near))]
fn is_near(window: u32) -> bool
    ensures { result ≡ is_near window }
{
    window / 4096 % 4096 == 4095 && window / 16 % 16 == 0
}

// The end of a run, or of so many nibbles from a place on.
fn sooner(end: usize, from: usize, most: usize) -> usize
    requires { from ≤ end }
    ensures { (result ≤ end) × (from ≤ result) × (result ≤ from + most) × ((result ≡ end) ⊎ (result ≡ from + most)) }
{
    if end - from < most {
        return end;
    }
    from + most
}

// A window with the two nibbles at a place, and its oldest two gone.
fn slide_byte(window: u32, s: &[u8], i: usize) -> u32
    requires { (i + 2 ≤ length s.now) × (get_or s.now i 0 < 16) × (get_or s.now (i + 1) 0 < 16) }
    ensures { result ≡ slide_byte window (get_or s.now i 0) (get_or s.now (i + 1) 0) }
{
    window % 0x100_0000 * 256 + 16 * s[i] as u32 + s[i + 1] as u32
}

// The oldest two nibbles of a window.
fn top_byte(window: u32) -> u8
    ensures { result ≡ window / byte_place }
{
    (window / 0x100_0000) as u8
}

// Whether a nibble where a gap has nothing but F was another, with a byte more.
#[tactic(auto, unfolding(crate::specs::Parts::stray_after))]
fn stray_after(stray: bool, byte: u8) -> bool
    ensures { result ≡ stray_after stray byte }
{
    byte < 255 || stray
}

// What is kept with the byte that leaves the window at an even count up to the body.
fn keep_byte(profile: Profile, count: u32, byte: u8, kept: Kept) -> Kept
    ensures { result ≡ byte_kept profile count byte kept }
{
    if count < 10 {
        return kept;
    }
    let stray = stray_kept(profile, kept.stray, byte);
    if count == 10 {
        return Kept {
            first: byte,
            stray,
            ..kept
        };
    }
    Kept {
        second: byte,
        stray,
        ..kept
    }
}

// The same of the two bytes after the code: in profile 1 a gap's own.
fn stray_kept(profile: Profile, stray: bool, byte: u8) -> bool
    ensures { result ≡ stray_kept profile stray byte }
{
    match profile {
        Profile::VV5404 => stray_after(stray, byte),
        Profile::VV5300 => stray,
    }
}
