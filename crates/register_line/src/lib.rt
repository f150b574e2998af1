// A line of a script: a setting of a sensor, or a message.
//
// In: a sensor and its state, the line's number, the line without its newline, and a lent buffer. Out: the text for the line at the front of the
// buffer, as far as it has room, its length, the state after it, and whether the line is refused. # starts a comment, which is left out, and so
// are the blanks (spaces, tabs, carriage returns) before it. A line with nothing else has no text.
// - A setting of the sensor (crate typed_setting): its messages in hex, one to a line. A setting leaves the sensor's state as it is.
// - A message in hex (crate two_wire_text) is read against the state: `WRITE 32 1 ok`, `REFUSED 27, read data differs`.
// - Any other line is refused, and told with its number and why: `line 3: coarse takes 0 to 302`.
// Cost: linear in the line.

#![tactic(auto)]

ghost use Rattle.std.specs.Prelude.{◌≡◌, cond, take};
ghost use Rattle.text.specs.Pages.{Writes};
ghost use Rattle.text.specs.Put.{Puts};
ghost use Rattle.typed_setting.specs.declared.Setting.TheVariants.{Unknown};
ghost use Rattle.typed_setting.specs.Setting.{setting_of};
ghost use Rattle.named_value.specs.Number.{is_blank};
ghost use Rattle.register_line.specs.Bare.{bare_length};
ghost use Rattle.register_line.specs.Line.{line_head, beyond_text, no_gain_text, unknown_words, unknown_text, too_long_text, RepliesTo, RepliesBy};

use profile::Profile;
use text::Page;
use two_wire::Sensor;
use two_wire_text::put_message;
use typed_setting::Setting;

// What a line gives: the sensor's state after it, the length of its text, and whether it is refused.
#[derive(Clone, Copy)]
pub struct Reply {
    pub sensor: Sensor,
    pub length: usize,
    pub refused: bool,
}

// The text for a line, and the state after it.
pub fn tell(profile: Profile, sensor: Sensor, number: u64, line: &[u8], out: &mut [u8]) -> Reply
    ensures { RepliesTo profile sensor number line.now out.old out.new result }
{
    let n = bare_length(line);
    if n == 0 {
        return Reply {
            sensor,
            length: 0,
            refused: false,
        };
    }
    tell_bare(profile, sensor, number, &line[..n], out)
}

// The text for a line without its comment, and the state after it.
fn tell_bare(profile: Profile, sensor: Sensor, number: u64, line: &[u8], out: &mut [u8]) -> Reply
    ensures { RepliesBy (setting_of profile line.now) profile sensor number line.now out.old out.new result }
{
    let asked = typed_setting::read(profile, line);
    match asked {
        Setting::Single(index, value) => {
            let mut page = Page::new(out);
            put_message(index, value, &mut page);
            Reply {
                sensor,
                length: page.used,
                refused: false,
            }
        }
        Setting::Double(index, high, next, low) => {
            let mut page = Page::new(out);
            put_message(index, high, &mut page);
            put_message(next, low, &mut page);
            Reply {
                sensor,
                length: page.used,
                refused: false,
            }
        }
        Setting::Beyond(at, limit) => {
            let length = put_beyond(number, line, at, limit, out);
            Reply {
                sensor,
                length,
                refused: true,
            }
        }
        Setting::NoGain => {
            let length = put_no_gain(number, out);
            Reply {
                sensor,
                length,
                refused: true,
            }
        }
        Setting::Unknown => explain(profile, sensor, number, line, out),
    }
}

// The text for a line that is no setting, and the state after it.
fn explain(profile: Profile, sensor: Sensor, number: u64, line: &[u8], out: &mut [u8]) -> Reply
    ensures { RepliesBy Unknown profile sensor number line.now out.old out.new result }
{
    if two_wire_text::is_message(line) {
        let told = two_wire_text::explain(sensor, line, out);
        let sensor = told.sensor;
        return Reply {
            sensor,
            length: told.length,
            refused: false,
        };
    }
    let length = put_unknown(profile, number, out);
    Reply {
        sensor,
        length,
        refused: true,
    }
}

// What a comment starts with.
const COMMENT: u8 = b'#';

// How many characters of a line stand before its comment and the blanks there.
fn bare_length(line: &[u8]) -> usize
    ensures { result ≡ bare_length line.now }
{
    let mut end: usize = 0;
    for (i, c) in line.iter().enumerate() {
        if *c == COMMENT {
            return end;
        }
        end = end_after(*c, end, i + 1);
    }
    end
}

// Where a line ends after a character that ends at a place: there, unless it is a blank.
fn end_after(c: u8, end: usize, place: usize) -> usize
    ensures { result ≡ cond (is_blank c) end place }
{
    if named_value::is_blank(c) {
        return end;
    }
    place
}

// Why a line is refused: its number, and what it may be.

fn put_line(number: u64, page: &mut Page<'_>)
    ensures { Writes (line_head number) page.old page.new }
{
    page.put(b"line ");
    page.put_decimal(number);
    page.put(b": ");
}

fn put_beyond(number: u64, line: &[u8], at: usize, limit: u16, out: &mut [u8]) -> usize
    ensures { Puts out.old 0 (beyond_text number at limit line.now) result out.new }
{
    let mut page = Page::new(out);
    put_line(number, &mut page);
    put_name(line, at, &mut page);
    page.put(b" takes 0 to ");
    page.put_decimal(limit as u64);
    page.put(b"\n");
    page.used
}

// The part of a line before a place.
fn put_name(line: &[u8], end: usize, page: &mut Page<'_>)
    ensures { Writes (take end line.now) page.old page.new }
{
    if line.len() <= end {
        page.put(line);
    } else {
        page.put(&line[..end]);
    }
}

fn put_no_gain(number: u64, out: &mut [u8]) -> usize
    ensures { Puts out.old 0 (no_gain_text number) result out.new }
{
    let mut page = Page::new(out);
    put_line(number, &mut page);
    page.put(b"gain takes 0, 1, 3 or 7\n");
    page.used
}

fn put_unknown(profile: Profile, number: u64, out: &mut [u8]) -> usize
    ensures { Puts out.old 0 (unknown_text profile number) result out.new }
{
    let mut page = Page::new(out);
    put_line(number, &mut page);
    put_unknown_words(profile, &mut page);
    page.used
}

fn put_unknown_words(profile: Profile, page: &mut Page<'_>)
    ensures { Writes (unknown_words profile) page.old page.new }
{
    match profile {
        Profile::VV5404 => page.put(b"no setting of the VV5404, and no message\n"),
        Profile::VV5300 => page.put(b"no setting of the VV5300, and no message\n"),
    }
}

// A line that fills the room for it: its number, and that room.
pub fn put_too_long(number: u64, room: usize, out: &mut [u8]) -> usize
    ensures { Puts out.old 0 (too_long_text number room) result out.new }
{
    let mut page = Page::new(out);
    put_line(number, &mut page);
    page.put_decimal(room as u64);
    page.put(b" characters or more\n");
    page.used
}
