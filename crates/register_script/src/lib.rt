// A script of settings and messages, in lines of text: what the program `registers` writes for its input.
//
// In: the script a character at a time, its end as a newline, a lent buffer that keeps the line so far, and a lent buffer for the text. Out: at a
// newline the text for the line (crate register_line), at the front of that buffer, and whether the line is refused; and where the script then
// stands. Blanks (spaces, tabs, carriage returns) before the first word are left out, and those between two words count as one space. A line
// that fills the buffer that keeps it is refused, and told with its number: `line 3: 4096 characters or more`.
// Cost: constant for a character, linear in the line at its end.

#![tactic(auto)]

ghost use Rattle.std.specs.Prelude.{◌≡◌};
ghost use Rattle.register_script.specs.Script.{start, place_of, line_after, RepliesLine, Appends, KeepsBlank, KeepsCharacter, Feeds};

use profile::Profile;
use register_line::Reply;
use two_wire::Sensor;

// Where a script stands: the sensor that it is for and its state, the number of the line, and how many of its characters are kept.
#[derive(Clone, Copy)]
pub struct Script {
    pub profile: Profile,
    pub sensor: Sensor,
    pub number: u64,
    pub length: usize,
}

// Where a script stands after a character, the length of the text, and whether that tells why a line is refused.
#[derive(Clone, Copy)]
pub struct ScriptFed {
    pub script: Script,
    pub length: usize,
    pub refused: bool,
}

impl Script {
    // The start of a script: line 1, and a fresh sensor.
    pub fn new(profile: Profile) -> Script
        ensures { result ≡ start profile }
    {
        Script {
            profile,
            sensor: Sensor::new(),
            number: 1,
            length: 0,
        }
    }

    // A character more.
    pub fn feed(self, c: u8, line: &mut [u8], out: &mut [u8; 128]) -> ScriptFed
        ensures { Feeds self c line.old out.old result line.new out.new }
    {
        let profile = self.profile;
        if c == b'\n' {
            let reply = answer(self, line, out);
            let sensor = reply.sensor;
            return ScriptFed {
                script: Script {
                    profile,
                    sensor,
                    number: following(self.number),
                    length: 0,
                },
                length: reply.length,
                refused: reply.refused,
            };
        }
        let sensor = self.sensor;
        let kept = keep(c, line, self.length);
        ScriptFed {
            script: Script {
                profile,
                sensor,
                number: self.number,
                length: kept,
            },
            length: 0,
            refused: false,
        }
    }
}

// The number of the next line; the greatest is held.
fn following(number: u64) -> u64
    ensures { result ≡ line_after number }
{
    if number < u64::MAX {
        return number + 1;
    }
    number
}

// Keeps a character, where the buffer has room, and gives how many are kept.
fn keep(c: u8, line: &mut [u8], length: usize) -> usize
    ensures { KeepsCharacter c line.old length line.new result }
{
    if named_value::is_blank(c) {
        return keep_blank(line, length);
    }
    append(c, line, length)
}

// Keeps a blank as a space after a word, and no second one.
fn keep_blank(line: &mut [u8], length: usize) -> usize
    ensures { KeepsBlank line.old length line.new result }
{
    if length == 0 {
        return 0;
    }
    if line.len() <= length {
        return line.len();
    }
    if line[length - 1] == b' ' {
        return length;
    }
    append(b' ', line, length)
}

// Keeps a character as it is.
fn append(c: u8, line: &mut [u8], length: usize) -> usize
    ensures { Appends c line.old length line.new result }
{
    if length < line.len() {
        line[length] = c;
        return length + 1;
    }
    line.len()
}

// The text for the line that is kept, as far as a buffer has room, and the sensor's state after it.
fn answer(script: Script, line: &[u8], out: &mut [u8]) -> Reply
    ensures { RepliesLine (place_of script line.now) out.old out.new result }
{
    let profile = script.profile;
    let sensor = script.sensor;
    let n = script.length;
    if line.len() <= n {
        let length = register_line::put_too_long(script.number, line.len(), out);
        return Reply {
            sensor,
            length,
            refused: true,
        };
    }
    register_line::tell(profile, sensor, script.number, &line[..n], out)
}
