// One word of a command line, as it was typed, and what it asks for.
//
//     MARK  vv5404|vv6404|vv5300  odd-pixels-first  -o  NAME
//
// In: a text, of any bytes. Out: what it asks for; a word of digits is a mark's number, one that begins with `-` and is no option is unknown, and
// any other is a name. Nothing is refused. Cost: linear in the word.

#![tactic(auto)]

ghost use Rattle.std.specs.Prelude.{◌≡◌, take};
ghost use Rattle.text.specs.Text.{ascii};
ghost use Rattle.command_word.specs.Word.{same, mark_in, name_word, other_word, word_of};

use profile::Profile;

// What a word asks for.
#[derive(Clone, Copy)]
pub enum Word {
    Sensor(Profile),
    OddPixelsFirst,
    Output,
    Unknown,
    // A mark's number, not 0.
    Mark(u64),
    Name,
}

// What a word asks for.
pub fn meaning(text: &[u8]) -> Word
    ensures { result ≡ word_of text.now }
{
    if is(text, b"vv5404") {
        return Word::Sensor(Profile::VV5404);
    }
    if is(text, b"vv6404") {
        return Word::Sensor(Profile::VV5404);
    }
    if is(text, b"vv5300") {
        return Word::Sensor(Profile::VV5300);
    }
    other_meaning(text)
}

// Whether a text is this one.
pub fn is(text: &[u8], that: &[u8]) -> bool
    ensures { result ≡ same text.now that.now }
{
    text == that
}

// What a word asks for that names no sensor.
fn other_meaning(text: &[u8]) -> Word
    ensures { result ≡ other_word text.now }
{
    if is(text, b"odd-pixels-first") {
        return Word::OddPixelsFirst;
    }
    if is(text, b"-o") {
        return Word::Output;
    }
    if has_dash(text) {
        return Word::Unknown;
    }
    mark_or_name(text)
}

// What a word asks for that names no sensor and is no option.
fn mark_or_name(text: &[u8]) -> Word
    ensures { result ≡ name_word text.now }
{
    let mark = mark_in(text);
    if mark == 0 {
        return Word::Name;
    }
    Word::Mark(mark)
}

// A number above this takes no digit more: no capture has so many marks.
const TENTH_OF_MARKS: u64 = 100_000_000_000_000_000;

// The number that a word of digits is; 0 for any other word.
fn mark_in(text: &[u8]) -> u64
    ensures { result ≡ mark_in text.now }
{
    let mut mark: u64 = 0;
    for c in text {
        if *c < b'0' || b'9' < *c || TENTH_OF_MARKS < mark {
            return 0;
        }
        mark = 10 * mark + (*c - b'0') as u64;
    }
    mark
}

// Whether a text begins with a dash.
fn has_dash(text: &[u8]) -> bool
    ensures { result ≡ same (take 1 text.now) (ascii "-") }
{
    text.starts_with(b"-")
}
