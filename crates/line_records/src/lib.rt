// A list of profile 0 lines, as it is lent (paper 02, A13): its lines end to end, 359 bytes each: kind, number in two bytes, high byte first,
// and the body of 356. In C it is an array of `struct { uint8_t kind, high, low, body[356]; }`.
//
// In: a list, of any bytes and any length; a last line that is cut within its body has its kind and number all the same, one cut before has neither.
// Out: whether its numbers rise strictly, whether they and its kinds are those of lines, and the number that it starts with, of its whole lines.
// Nothing is refused. Cost: linear in the lines.

#![tactic(auto)]

ghost use Rattle.std.specs.Prelude.{◌≡◌, not, ◌≤◌, ◌<◌, length};
ghost use Rattle.line_records.specs.Lines.{head_size, no_line, front_line, headed_lines, rises, numbers_small, kinds_known, Next};

use line_code::Kind;
use profile::Profile;

// The bytes of a line before its body, and of the line.
pub const HEAD: usize = 3;

pub const LINE: usize = HEAD + Profile::WIDTH;

// The greatest number of a line.
const GREATEST: usize = line_number::GREATEST as usize;

// More than any number that two bytes hold: there is no line.
pub const NO_LINE: usize = 65536;

// Whether a number is not above the one before it.
pub fn some_falls(list: &[u8]) -> bool
    ensures { rises (headed_lines list.now) ≡ not result }
{
    let mut least: usize = 0;
    for line in list.chunks(LINE) {
        if line.len() < HEAD {
            return false;
        }
        let n = number(line);
        if n < least {
            return true;
        }
        least = n + 1;
    }
    false
}

// Whether a number is above 4095.
pub fn some_number_past(list: &[u8]) -> bool
    ensures { numbers_small (headed_lines list.now) ≡ not result }
{
    list.chunks(LINE)
        .any(|line| HEAD <= line.len() && GREATEST < number(line))
}

// Whether a kind is not 1 to 5.
pub fn some_kind_bad(list: &[u8]) -> bool
    ensures { kinds_known (headed_lines list.now) ≡ not result }
{
    list.chunks(LINE).any(|line| {
        HEAD <= line.len() && (line[0] < Kind::BL.number() || Kind::EOF.number() < line[0])
    })
}

// The number that a list starts with, or more than any where it has no line.
pub fn next_number(list: &[u8]) -> usize
    ensures { Next list.now result }
{
    if list.len() < LINE {
        return NO_LINE;
    }
    number(list)
}

// The number of the line at the front.
fn number(line: &[u8]) -> usize
    requires { head_size ≤ length line.now }
    ensures { (result ≡ (front_line line.now).number) × (result < no_line) }
{
    256 * wide(line[1]) + wide(line[2])
}

fn wide(x: u8) -> usize
    ensures { (result ≡ x) × (result < 256) }
{
    x as usize
}
