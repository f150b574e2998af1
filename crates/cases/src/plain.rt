// What the cases read and write besides what they share with other scripts.
use script_words::{number, say, say_number, word_at};

// Writes a number between two texts.
pub fn say_counted(rt: HostRuntime, before: &[u8], n: u64, after: &[u8]) {
    say(rt, before);
    say_number(rt, n);
    say(rt, after);
}

// Writes a byte as two hexadecimal digits.
pub fn say_hex(rt: HostRuntime, byte: u8) {
    let _ = print!(rt; "{byte:02x}");
}

// The number that is a line's word with this number, the first being 0; where there is none, 0.
pub fn number_at(line: &[u8], word: usize) -> u64 {
    number(word_at(line, word))
}

// Such a number, as the calls take it.
pub fn byte_at(line: &[u8], word: usize) -> u8 {
    (number_at(line, word) % 256) as u8
}

pub fn short_at(line: &[u8], word: usize) -> u16 {
    (number_at(line, word) % 65536) as u16
}

pub fn long_at(line: &[u8], word: usize) -> u32 {
    (number_at(line, word) % 4294967296) as u32
}
