// Why a mark is answered as it is (paper 02, A9).
//
// In: a profile's number, the number of the kind of the mark before (0 for none or no line kind), and a run of nibbles that begins at a
// mark and goes on through the next mark's code or to finish. Out: the reason of the first mark's answer. Refused, in this order: 11 no
// such profile, 13 a kind above 5, 10 an input above 15 anywhere in the run, 36 a run that doesn't begin with a mark.
// Cost: linear in the run, which is not copied.

#![tactic(auto)]

ghost use Rattle.std.specs.Prelude.{◌≡◌, true, ◌+◌, ◌*◌, ◌<◌, ◌≤◌, length, drop};
ghost use Rattle.stream.specs.Answers.{line_nibbles};
ghost use Rattle.stream.specs.Nibbles.{nibbles_only};
ghost use Rattle.reason.specs.Sums.{failed_sums};
ghost use Rattle.reason.specs.Explanation.{code_at, begins_mark, next_mark, pair_at, next_reason, line_from_body, line_from_number, line_reason, gap_rule, stray_reason, two_bytes_reason, gap_reason, end_mark_reason, meaning_reason, reason_of, first_reason, run_reason};
ghost use Rattle.reason.specs.Valued.{valued, explanation_values};

use line_code::{Kind, Meaning, Reading};
use profile::{Profile, Rule};
use refusal::Refusal;

// The parity sums of a code byte that fail: an odd count of ones.
#[derive(Clone, Copy)]
pub struct FailedSums {
    // C2 C1 C0 P0
    pub p0: bool,
    // C2 C1 P1
    pub p1: bool,
    // C2 C0 P2
    pub p2: bool,
    // C1 C0 P3
    pub p3: bool,
}

// Why a mark is answered as it is: one enum, in which a refused call stands beside the reasons of a mark, as in the paper's list.
#[derive(Clone, Copy)]
pub enum Reason {
    GoodLine,
    GoodGap,
    // 1: the code byte, and the parity sums that it fails.
    DamagedCode(u8, FailedSums),
    // 2
    ReservedCode,
    // 3
    UnfinishedLine,
    // 4: the text's nibbles, found and wanted.
    WrongLength(usize, usize),
    // 5: the place of the first bad number byte, and the byte.
    BadNumber(usize, u8),
    // 6: the place of the first bad body byte, and the byte.
    BadBody(usize, u8),
    // 7: the code that came.
    NoEndOfLine(u8),
    // 8
    EndWithoutLine,
    // 9: the place of the gap's first bad nibble, and the nibble.
    BadGap(usize, u8),
    // 9: the nibbles of a profile 1 gap under two bytes.
    ShortGap(usize),
    // Refused: 11, 13, 10 or 36.
    Refused(Refusal),
}

// The reason of the answer to a run's first mark.
pub fn explain(profile: u8, before: u8, run: &[u8]) -> Reason
    ensures { valued result ≡ explanation_values profile before run.now }
{
    let numbered = Profile::numbered(profile);
    match numbered {
        None => Reason::Refused(Refusal::BAD_STATE),
        Some(p) => run_reason(p, before, run),
    }
}

// The same of a profile.
fn run_reason(profile: Profile, before: u8, run: &[u8]) -> Reason
    ensures { result ≡ run_reason profile before run.now }
{
    if LAST_KIND < before {
        return Reason::Refused(Refusal::BAD_KIND);
    }
    if nibbles_only(run) {
        if begins_mark(run) {
            let kind = Kind::numbered(before);
            return first_reason(profile, kind, &run[OPENER..]);
        }
        return Reason::Refused(Refusal::NO_MARK_FIRST);
    }
    Reason::Refused(Refusal::NOT_A_NIBBLE)
}

// The nibbles of F F F F 0 0.
const OPENER: usize = 6;

// The nibbles of a mark: F F F F 0 0 and its code.
const MARK: usize = 8;

// The place of a line's first body nibble in its text: code and number stand before it.
const BODY_PLACE: usize = 6;

const LAST_KIND: u8 = 5;

// Whether no input is above 15.
fn nibbles_only(run: &[u8]) -> bool
    ensures { result ≡ nibbles_only run.now }
{
    run.iter().all(|n| *n <= 15)
}

// Whether the nibbles begin with a mark. The first is asked before the six are: of most places it decides, and the call costs a quarter more.
fn begins_mark(run: &[u8]) -> bool
    ensures { (result ≡ begins_mark run.now) × (result ≡ true → 8 ≤ length run.now) }
{
    if run.len() < MARK || run[0] != 15 {
        return false;
    }
    run.starts_with(&[15, 15, 15, 15, 0, 0])
}

// How many nibbles stand before the first place where a mark begins.
fn next_mark(run: &[u8]) -> usize
    ensures { (result ≡ next_mark run.now) × (result ≤ length run.now) }
{
    for i in 0..run.len() {
        if begins_mark(&run[i..]) {
            return i;
        }
    }
    run.len()
}

// The code of the mark that the nibbles begin with, if they do.
fn code_at(run: &[u8]) -> Option<u8>
    requires { nibbles_only run.now ≡ true }
    ensures { result ≡ code_at run.now }
{
    if begins_mark(run) {
        return Some(pair_at(run, OPENER));
    }
    None
}

// The byte of the nibbles at a place and the next.
fn pair_at(text: &[u8], i: usize) -> u8
    requires { (nibbles_only text.now ≡ true) × (i + 1 < length text.now) }
    ensures { result ≡ pair_at text.now i }
{
    joined(text[i], text[i + 1])
}

fn joined(high: u8, low: u8) -> u8
    requires { (high < 16) × (low < 16) }
    ensures { result ≡ 16 * high + low }
{
    16 * high + low
}

// The reason, of what follows a run's first F F F F 0 0.
fn first_reason(profile: Profile, before: Option<Kind>, run: &[u8]) -> Reason
    requires { (nibbles_only run.now ≡ true) × (2 ≤ length run.now) }
    ensures { result ≡ first_reason profile before run.now }
{
    let code = pair_at(run, 0);
    let end = next_mark(run);
    let next = code_at(&run[end..]);
    mark_reason(profile, before, code, &run[..end], next)
}

// The reason, of a mark's code, its text and the next mark's code, none at finish.
fn mark_reason(
    profile: Profile,
    before: Option<Kind>,
    code: u8,
    text: &[u8],
    next: Option<u8>,
) -> Reason
    requires { nibbles_only text.now ≡ true }
    ensures { result ≡ reason_of profile before code text.now next }
{
    let reading = line_code::read(code);
    match reading {
        Reading::Says(m, _) => meaning_reason(profile, before, m, text, next),
        Reading::Damaged => {
            let sums = failed_sums(code);
            Reason::DamagedCode(code, sums)
        }
    }
}

fn meaning_reason(
    profile: Profile,
    before: Option<Kind>,
    m: Meaning,
    text: &[u8],
    next: Option<u8>,
) -> Reason
    requires { nibbles_only text.now ≡ true }
    ensures { result ≡ meaning_reason profile before m text.now next }
{
    match m {
        Meaning::EndOfLine => end_mark_reason(profile, before, text),
        Meaning::Line(kind) => line_reason(profile, kind, text, next),
        Meaning::ReservedEC => Reason::ReservedCode,
        Meaning::ReservedF1 => Reason::ReservedCode,
    }
}

// Which of the four parity sums of a code byte fail.
fn failed_sums(byte: u8) -> FailedSums
    ensures { result ≡ failed_sums byte }
{
    let c2 = byte / 64 % 2;
    let c1 = byte / 32 % 2;
    let c0 = byte / 16 % 2;
    FailedSums {
        p0: (c2 + c1 + c0 + byte % 2) % 2 == 1,
        p1: (c2 + c1 + byte / 2 % 2) % 2 == 1,
        p2: (c2 + c0 + byte / 4 % 2) % 2 == 1,
        p3: (c1 + c0 + byte / 8 % 2) % 2 == 1,
    }
}

// 3, 4, or by number, body and the next mark's code.
fn line_reason(profile: Profile, kind: Kind, text: &[u8], next: Option<u8>) -> Reason
    requires { nibbles_only text.now ≡ true }
    ensures { result ≡ line_reason profile kind text.now next }
{
    match next {
        None => Reason::UnfinishedLine,
        Some(code) => {
            let wanted = 2 * profile.body_length() + BODY_PLACE;
            if text.len() == wanted {
                return number_reason(profile, kind, text, code);
            }
            Reason::WrongLength(text.len(), wanted)
        }
    }
}

// 5, or by the body.
fn number_reason(profile: Profile, kind: Kind, text: &[u8], next: u8) -> Reason
    requires { (nibbles_only text.now ≡ true) × (length text.now ≡ line_nibbles profile) }
    ensures { result ≡ line_from_number profile kind text.now next }
{
    let high = pair_at(text, 2);
    let low = pair_at(text, 4);
    if line_number::is_good(high) {
        if line_number::is_good(low) {
            return body_reason(profile, kind, text, next);
        }
        return Reason::BadNumber(1, low);
    }
    Reason::BadNumber(0, high)
}

// 6, or by the next mark's code.
fn body_reason(profile: Profile, kind: Kind, text: &[u8], next: u8) -> Reason
    requires { (nibbles_only text.now ≡ true) × (length text.now ≡ line_nibbles profile) }
    ensures { result ≡ line_from_body profile kind text.now next }
{
    for i in 0..profile.body_length() {
        let byte = pair_at(text, BODY_PLACE + 2 * i);
        let rule = line_layout::rule_at(profile, kind, i);
        if !rule.allows(byte) {
            return Reason::BadBody(i, byte);
        }
    }
    next_reason(next)
}

// 7, or a good line.
fn next_reason(next: u8) -> Reason
    ensures { result ≡ next_reason next }
{
    let reading = line_code::read(next);
    if reading.is_end() {
        return Reason::GoodLine;
    }
    Reason::NoEndOfLine(next)
}

// 8, or by the gap.
fn end_mark_reason(profile: Profile, before: Option<Kind>, text: &[u8]) -> Reason
    requires { nibbles_only text.now ≡ true }
    ensures { result ≡ end_mark_reason profile before (drop 2 text.now) }
{
    match before {
        None => Reason::EndWithoutLine,
        Some(kind) => {
            let start = code_end(text.len());
            gap_reason(profile, kind, &text[start..])
        }
    }
}

// Where the code's two nibbles end, in a text of this length.
fn code_end(length: usize) -> usize
    ensures { (result ≤ 2) × (result ≤ length) × (result < 2 → result ≡ length) }
{
    if length < 2 {
        return length;
    }
    2
}

// 9, or a good gap.
fn gap_reason(profile: Profile, kind: Kind, gap: &[u8]) -> Reason
    requires { nibbles_only gap.now ≡ true }
    ensures { result ≡ gap_reason profile kind gap.now }
{
    match profile {
        Profile::VV5404 => stray_reason(gap, 0),
        Profile::VV5300 => two_bytes_reason(kind, gap),
    }
}

// Profile 1: by the two bytes, then by what follows.
fn two_bytes_reason(kind: Kind, gap: &[u8]) -> Reason
    requires { nibbles_only gap.now ≡ true }
    ensures { result ≡ two_bytes_reason kind gap.now }
{
    if gap.len() < 4 {
        return Reason::ShortGap(gap.len());
    }
    let first = pair_at(gap, 0);
    let second = pair_at(gap, 2);
    let rule = gap_rule(kind);
    if rule.allows(first) {
        if rule.allows(second) {
            return stray_reason(gap, 4);
        }
        return Reason::BadGap(2, gap[2]);
    }
    Reason::BadGap(0, gap[0])
}

// What each of a profile 1 gap's two bytes may be, after a line of this kind.
fn gap_rule(kind: Kind) -> Rule
    ensures { result ≡ gap_rule kind }
{
    match kind {
        Kind::BL => Rule::Filler,
        Kind::BK => Rule::Filler,
        Kind::VL => Rule::Pixel,
        Kind::SOF => Rule::Filler,
        Kind::EOF => Rule::Filler,
    }
}

// The first nibble other than F, from a place on.
fn stray_reason(gap: &[u8], from: usize) -> Reason
    requires { from ≤ length gap.now }
    ensures { result ≡ stray_reason (drop from gap.now) from }
{
    for i in from..gap.len() {
        if gap[i] != 15 {
            return Reason::BadGap(i, gap[i]);
        }
    }
    Reason::GoodGap
}
