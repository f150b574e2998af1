// Two lists of profile 0 lines compared (paper 02, A13).
//
// In: two lists as crate line_records has them, and a lent buffer. Out: in the buffer every line whose number one list only holds, every number
// whose kinds differ and every place where bodies differ, as crate diff_records writes them, in rising number, kinds before places, then by
// place. The answer is the length used; the rest of the buffer stays. Refused, in this order, each looked for over both lists before the next,
// and then nothing is written: 35 numbers that don't rise strictly, 14 a number above 4095, 13 a kind not 1 to 5, 15 a list cut within a line,
// 12 room. 35, 14 and 13 look at a last line that is cut within its body too: its kind and number are there. Cost: linear; the lists are walked
// once for the room needed and once for writing.

#![tactic(auto)]

ghost use Rattle.std.specs.Prelude.{◌≡◌, not, ◌&&◌, leb, length};
ghost use Rattle.lent_buffer.specs.Filled.{Gives};
ghost use Rattle.text.specs.Put.{Puts};
ghost use Rattle.line_records.specs.Lines.{full_lines, headed_lines, rises, numbers_small, kinds_known, none_cut};
ghost use Rattle.diff_records.specs.Difference.{differences, encoded_all};
ghost use Rattle.diff_lines.specs.Compare.{compare_of};

use lent_buffer::Filled;
use line_records::LINE;
use refusal::Refusal;

// Compares two lists.
pub fn compare(first: &[u8], second: &[u8], buffer: &mut [u8]) -> Filled
    ensures { Gives (compare_of first.now second.now (length buffer.old)) result buffer.old buffer.new }
{
    if either_falls(first, second) {
        return Err(Refusal::NUMBERS_NOT_RISING);
    }
    if either_past(first, second) {
        return Err(Refusal::NUMBER_TOO_LARGE);
    }
    if either_bad(first, second) {
        return Err(Refusal::BAD_KIND);
    }
    if either_cut(first, second) {
        return Err(Refusal::WRONG_BODY_LENGTH);
    }
    if fits(first, second, buffer.len()) {
        let end = put_all(first, second, buffer);
        return Ok(end);
    }
    Err(Refusal::NO_ROOM)
}

// Whether in either list a number is not above the one before it.
fn either_falls(first: &[u8], second: &[u8]) -> bool
    ensures { (rises (headed_lines first.now) && rises (headed_lines second.now)) ≡ not result }
{
    line_records::some_falls(first) || line_records::some_falls(second)
}

// Whether in either list a number is above 4095.
fn either_past(first: &[u8], second: &[u8]) -> bool
    ensures { (numbers_small (headed_lines first.now) && numbers_small (headed_lines second.now)) ≡ not result }
{
    line_records::some_number_past(first) || line_records::some_number_past(second)
}

// Whether in either list a kind is not 1 to 5.
fn either_bad(first: &[u8], second: &[u8]) -> bool
    ensures { (kinds_known (headed_lines first.now) && kinds_known (headed_lines second.now)) ≡ not result }
{
    line_records::some_kind_bad(first) || line_records::some_kind_bad(second)
}

// Whether either list is cut within a line.
fn either_cut(first: &[u8], second: &[u8]) -> bool
    ensures { (none_cut first.now && none_cut second.now) ≡ not result }
{
    first.len() % LINE != 0 || second.len() % LINE != 0
}

// Whether there is room for all differences.
fn fits(first: &[u8], second: &[u8], room: usize) -> bool
    ensures { result ≡ leb (length (encoded_all (differences (full_lines first.now) (full_lines second.now)))) room }
{
    let mut left = room;
    let mut i: usize = 0;
    let mut j: usize = 0;
    // Not a for: each turn goes on by how far the next number reaches in each list.
    loop {
        let a = &first[i..];
        let b = &second[j..];
        let n = line_records::next_number(a);
        let m = line_records::next_number(b);
        let far = diff_records::how_far(n, m);
        let other = diff_records::how_far(m, n);
        if far + other == 0 {
            return true;
        }
        let size = diff_records::next_size(a, b);
        if left < size {
            return false;
        }
        left -= size;
        i += far;
        j += other;
    }
}

// Puts all differences at the front, and gives their length.
fn put_all(first: &[u8], second: &[u8], buffer: &mut [u8]) -> usize
    ensures { Puts buffer.old 0 (encoded_all (differences (full_lines first.now) (full_lines second.now))) result buffer.new }
{
    let mut at: usize = 0;
    let mut i: usize = 0;
    let mut j: usize = 0;
    // Not a for: each turn goes on by how far the next number reaches in each list.
    loop {
        let a = &first[i..];
        let b = &second[j..];
        let n = line_records::next_number(a);
        let m = line_records::next_number(b);
        let far = diff_records::how_far(n, m);
        let other = diff_records::how_far(m, n);
        if far + other == 0 {
            return at;
        }
        at = diff_records::put_next(a, b, buffer, at);
        i += far;
        j += other;
    }
}
