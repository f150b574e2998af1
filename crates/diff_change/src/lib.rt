// A difference between two lists of lines, read back from its bytes, without a body (paper 02, A13).
//
// In: the bytes of differences (crate diff_records). Out: the difference that they start with, and how many bytes it has. Nothing is refused: any bytes
// are read as a difference, what is missing at the end as 0. Cost: constant.

#![tactic(auto)]

ghost use Rattle.std.specs.Prelude.{◌≡◌, ◌+◌, ◌<◌, get_or};
ghost use Rattle.line_records.specs.Lines.{from_two};
ghost use Rattle.diff_records.specs.ReadBack.{front_of, front_size};
ghost use Rattle.diff_change.specs.Front.{change_of};

// A difference without a body: of a line that one list only holds, its number; of a number, both kinds; of a number and a place, both bytes.
#[derive(Clone, Copy)]
pub enum Change {
    First(usize),
    Second(usize),
    Kinds(usize, u8, u8),
    Bytes(usize, usize, u8, u8),
}

// The difference that some bytes start with.
pub fn front(records: &[u8]) -> Change
    ensures { result ≡ change_of (front_of records.now) }
{
    let tag = byte(records, 0);
    let number = two(records, 1);
    if tag == diff_records::ONLY_FIRST {
        return Change::First(number);
    }
    if tag == diff_records::ONLY_SECOND {
        return Change::Second(number);
    }
    if tag == diff_records::BOTH_KINDS {
        return Change::Kinds(number, byte(records, 3), byte(records, 4));
    }
    Change::Bytes(number, two(records, 3), byte(records, 5), byte(records, 6))
}

// The bytes of the difference that some bytes start with.
pub fn front_size(records: &[u8]) -> usize
    ensures { result ≡ front_size records.now }
{
    let tag = byte(records, 0);
    if tag == diff_records::ONLY_FIRST {
        return diff_records::WHOLE_SIZE;
    }
    if tag == diff_records::ONLY_SECOND {
        return diff_records::WHOLE_SIZE;
    }
    if tag == diff_records::BOTH_KINDS {
        return diff_records::KINDS_SIZE;
    }
    diff_records::BYTES_SIZE
}

// The number in two bytes at a place, high byte first.
fn two(bytes: &[u8], i: usize) -> usize
    requires { i < 256 }
    ensures { (result ≡ from_two (get_or bytes.now i 0) (get_or bytes.now (i + 1) 0)) × (result < 65536) }
{
    256 * wide(byte(bytes, i)) + wide(byte(bytes, i + 1))
}

fn wide(x: u8) -> usize
    ensures { (result ≡ x) × (result < 256) }
{
    x as usize
}

// The byte at a place, 0 past the end.
fn byte(bytes: &[u8], i: usize) -> u8
    ensures { result ≡ get_or bytes.now i 0 }
{
    if i < bytes.len() {
        return bytes[i];
    }
    0
}
