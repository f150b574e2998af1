// A line as a person types it: a name, blanks and a value in decimal, `fine 120`.
//
// In: a line, and a place of it. Out: whether its first word is a name; the value after a name of a length; the number that it is from a place on.
// Nothing is refused: a number that is missing, or above 65,535, is 65,536. Cost: linear in the line.

#![tactic(auto)]

ghost use Rattle.std.specs.Prelude.{◌≡◌, drop};
ghost use Rattle.named_value.specs.Number.{is_blank, past_blanks, ends_word, first_word_is, digit_onto, number_in, value_in};

// What stands for a number that is missing, or above 65,535.
const NO_NUMBER: u32 = 65536;

// Whether a character is a space, a tab or a carriage return.
#[tactic(auto, unfolding(crate::specs::Number::is_blank))]
pub fn is_blank(c: u8) -> bool
    ensures { result ≡ is_blank c }
{
    matches!(c, b' ' | b'\t' | b'\r')
}

// Whether a line's first word is this one.
pub fn begins(line: &[u8], word: &[u8]) -> bool
    ensures { result ≡ first_word_is word.now line.now }
{
    line.starts_with(word) && ends_word(line, word.len())
}

// Whether a word of a line may end before a place: the line ends there, or a blank stands there.
fn ends_word(line: &[u8], at: usize) -> bool
    ensures { result ≡ ends_word (drop at line.now) }
{
    line.len() <= at || is_blank(line[at])
}

// The value that stands in a line after a name of a length, and blanks.
pub fn value(line: &[u8], at: usize) -> u32
    ensures { result ≡ value_in (drop at line.now) }
{
    if line.len() <= at {
        return NO_NUMBER;
    }
    if is_blank(line[at]) {
        return number(line, past_blanks(line, at + 1));
    }
    NO_NUMBER
}

// The first place of a line from a place on where no blank stands.
fn past_blanks(line: &[u8], at: usize) -> usize
    ensures { drop result line.now ≡ past_blanks (drop at line.now) }
{
    for i in at..line.len() {
        if !is_blank(line[i]) {
            return i;
        }
    }
    line.len()
}

// The number that a line is from a place on, up to 65,535.
pub fn number(line: &[u8], at: usize) -> u32
    ensures { result ≡ number_in (drop at line.now) }
{
    if line.len() <= at {
        return NO_NUMBER;
    }
    let mut n: u32 = 0;
    for c in &line[at..] {
        n = digit_onto(n, *c);
    }
    n
}

// A number with one decimal digit more.
fn digit_onto(n: u32, c: u8) -> u32
    ensures { result ≡ digit_onto n c }
{
    if c < b'0' {
        return NO_NUMBER;
    }
    if b'9' < c {
        return NO_NUMBER;
    }
    if 6553 < n {
        return NO_NUMBER;
    }
    let more = 10 * n + (c - b'0') as u32;
    if 65535 < more {
        return NO_NUMBER;
    }
    more
}
