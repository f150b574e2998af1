// The words of a script of cases (crates cases, table_cases and trials), and what is said of them.
//
// In: a line, its words with a space between two; the handle of the running program. Out: words and numbers, of any line; texts and numbers on
// standard output, where a write that fails is passed over. Cost: linear in the line.

#![tactic(auto)]

ghost use Rattle.std.specs.Prelude.{◌≡◌, ◌≤◌, ◌<◌, ◌+◌, ◌*◌, ◌^◌, IfSome};
ghost use Rattle.script_words.specs.Words.{word_at};

use refusal::Refusal;
use std::io::Print;

// Writes a text.
pub fn say(rt: HostRuntime, text: &[u8]) {
    let _ = rt.stdout().write_all(text);
}

// Writes the front of a text, so many bytes.
pub fn say_front(rt: HostRuntime, text: &[u8], count: usize) {
    if count <= text.len() {
        say(rt, &text[..count]);
    }
}

// Writes a number in decimal.
pub fn say_number(rt: HostRuntime, n: u64) {
    let _ = print!(rt; "{n}");
}

// Writes a refusal.
pub fn say_refused(rt: HostRuntime, refusal: Refusal) {
    say(rt, b"REFUSED ");
    say_number(rt, refusal.0 as u64);
}

// Ends a line.
pub fn end_line(rt: HostRuntime) {
    say(rt, b"\n");
}

// The word of a line with this number, the first being 0; where there is none, an empty one.
pub fn word_at(line: &[u8], word: usize) -> &[u8]
    ensures { result.now ≡ word_at line.now word }
{
    match line.split(|sign| *sign == b' ').nth(word) {
        Some(found) => found,
        None => &line[..0],
    }
}

// The greatest number that a digit may follow, so that a u64 holds it and the digit.
const GREATEST: u64 = 1_000_000_000_000_000_000;

// The number of a word, in decimal.
pub fn number(word: &[u8]) -> u64
    ensures { result ≤ 10 * 10 ^ 12 + 9 }
{
    number_to(word, 1_000_000_000_000)
}

// The number of a word, in decimal: another sign is passed over, and so is each after a number that is larger than this, or than the greatest.
pub fn number_to(word: &[u8], most: u64) -> u64
    ensures { result ≤ 10 * most + 9 }
{
    let most = most.min(GREATEST);
    let mut n: u64 = 0;
    for sign in word {
        n = with_digit(n, *sign, most);
    }
    n
}

// A number with one digit more, unless it is larger than this; another sign is passed over.
fn with_digit(n: u64, sign: u8, most: u64) -> u64
    requires within { n ≤ 10 * most + 9 }
    requires small { most ≤ 10 ^ 18 }
    ensures { result ≤ 10 * most + 9 }
{
    match sign {
        b'0'..=b'9' if n <= most => 10 * n + (sign - b'0') as u64,
        _ => n,
    }
}

// The nibble of a hexadecimal digit; none of any other sign.
pub fn nibble_of(sign: u8) -> Option<u8>
    ensures { IfSome result (λ n. n < 16) }
{
    match sign {
        b'0'..=b'9' => Some(sign - b'0'),
        b'A'..=b'F' => Some(sign - b'A' + 10),
        _ => None,
    }
}
