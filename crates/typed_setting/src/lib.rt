// Settings of a sensor as a person writes them, a name, blanks and a value in decimal: `fine 120`.
//
// In: the sensor, and a line. Out: the registers to write, with their values, or what the value may be, or that the line names no setting of
// that sensor. What the sensors have: 004, Tables 8 and 24, and 000, 'The programmers model'. Cost: linear in the line.
//
// | name | VV5404 | VV5300 |
// | fine | 0 to 438, of two bytes | 0 to 255, of one byte |
// | coarse | 0 to 302, of two bytes | 0 to 145, of one byte |
// | gain | 0, 1, 3 or 7 | 0 to 7 |
// | divisor | 0 to 3 | 0 to 3 |
// | setup0, setup1, setup2, setup4 | 0 to 255 | 0 to 255 |
// | setup3 | | 0 to 255 |
// | setup5 | 0 to 255 | |

#![tactic(auto)]

ghost use Rattle.std.specs.Prelude.{◌≡◌, drop};
ghost use Rattle.named_value.specs.Number.{value_in};
ghost use Rattle.typed_setting.specs.Setting.{single, double, gain_code, shared_setting, setting_vv5404, setting_vv5300, setting_of};

use named_value::{begins, value};
use profile::Profile;
use two_wire::register;

// What a line asks for.
#[derive(Clone, Copy)]
pub enum Setting {
    // A register's index and value.
    Single(u8, u8),
    // Two registers' indices and values, high byte first.
    Double(u8, u8, u8, u8),
    // No number, or one above the limit: the length of the name before it, and the limit.
    Beyond(usize, u16),
    // No gain code of the VV5404.
    NoGain,
    // No setting.
    Unknown,
}

// The VV5300's, at 50 Hz (000, page 32), and its greatest gain code (page 33).
const FINE_LIMIT_VV5300: u8 = 255;

const COARSE_LIMIT_VV5300: u8 = 145;

const GAIN_LIMIT_VV5300: u8 = 7;

const BYTE_LIMIT: u8 = 255;

// The setting that a line is: `setting_of`.
pub fn read(profile: Profile, line: &[u8]) -> Setting
    ensures { result ≡ setting_of profile line.now }
{
    match profile {
        Profile::VV5404 => read_vv5404(line),
        Profile::VV5300 => read_vv5300(line),
    }
}

fn read_vv5404(line: &[u8]) -> Setting
    ensures { result ≡ setting_vv5404 line.now }
{
    if begins(line, b"fine") {
        return double(
            line,
            4,
            register::FINE_HIGH,
            register::FINE_LOW,
            exposure::FINE_LIMIT_25,
        );
    }
    if begins(line, b"coarse") {
        return double(
            line,
            6,
            register::COARSE_HIGH,
            register::COARSE_LOW,
            exposure::COARSE_LIMIT,
        );
    }
    if begins(line, b"gain") {
        return gain_code(value(line, 4));
    }
    if begins(line, b"setup5") {
        return single(line, 6, register::SETUP5, BYTE_LIMIT);
    }
    read_shared(line)
}

fn read_vv5300(line: &[u8]) -> Setting
    ensures { result ≡ setting_vv5300 line.now }
{
    if begins(line, b"fine") {
        return single(line, 4, register::FINE_LOW, FINE_LIMIT_VV5300);
    }
    if begins(line, b"coarse") {
        return single(line, 6, register::COARSE_LOW, COARSE_LIMIT_VV5300);
    }
    if begins(line, b"gain") {
        return single(line, 4, register::GAIN, GAIN_LIMIT_VV5300);
    }
    if begins(line, b"setup3") {
        return single(line, 6, register::SETUP3, BYTE_LIMIT);
    }
    read_shared(line)
}

// The settings that both sensors have.
fn read_shared(line: &[u8]) -> Setting
    ensures { result ≡ shared_setting line.now }
{
    if begins(line, b"divisor") {
        return single(line, 7, register::CLOCK_DIVISOR, exposure::DIVISOR_LIMIT);
    }
    if begins(line, b"setup0") {
        return single(line, 6, register::SETUP0, BYTE_LIMIT);
    }
    if begins(line, b"setup1") {
        return single(line, 6, register::SETUP1, BYTE_LIMIT);
    }
    if begins(line, b"setup2") {
        return single(line, 6, register::SETUP2, BYTE_LIMIT);
    }
    if begins(line, b"setup4") {
        return single(line, 6, register::SETUP4, BYTE_LIMIT);
    }
    Setting::Unknown
}

// A value of one byte, after a name of a length.
fn single(line: &[u8], at: usize, index: u8, limit: u8) -> Setting
    ensures { result ≡ single at index limit (value_in (drop at line.now)) }
{
    let value = value(line, at);
    if (limit as u32) < value {
        return Setting::Beyond(at, limit as u16);
    }
    Setting::Single(index, value as u8)
}

// A value of two bytes.
fn double(line: &[u8], at: usize, high: u8, low: u8, limit: u16) -> Setting
    ensures { result ≡ double at high low limit (value_in (drop at line.now)) }
{
    let value = value(line, at);
    if (limit as u32) < value {
        return Setting::Beyond(at, limit);
    }
    Setting::Double(high, (value / 256) as u8, low, (value % 256) as u8)
}

// A gain code of the VV5404.
fn gain_code(value: u32) -> Setting
    ensures { result ≡ gain_code value }
{
    if exposure::is_gain(value) {
        return Setting::Single(register::GAIN, value as u8);
    }
    Setting::NoGain
}
