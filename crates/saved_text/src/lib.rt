// The text of a list of saved settings (crate `saved_lines`), read.
//
// In: a text, of any bytes. Out: the list whose text it is; carriage returns don't count, and the last newline may be missing. Any other text is
// refused with 37 NOT_SAVED_SETTINGS: the numbers of its lines are gathered, and their list's text is compared with it. So a number that is too
// large or has a digit too many, a ninth line, a line for an unused place and a wrong word are refused by one test. Cost: linear in the text.

#![tactic(auto)]

ghost use Rattle.std.specs.Prelude.{◌≡◌, ◌≤◌, drop};
ghost use Rattle.saved_setting.specs.SavedSettings.{is_saved_list};
ghost use Rattle.saved_lines.specs.SavedLines.{settings_text};
ghost use Rattle.saved_text.specs.SettingsText.{with_one_more, with_digit, next_name, with_field, fields_after, setting_of_fields, no_fields, with_setting_line, nothing_gathered, gathered_after, numbers_of, cover_of, may_stand, at_most_newline, is_like, restored};

use refusal::Refusal;
use saved_held::find_held;
use saved_lines::put_settings;
use saved_setting::SavedSetting;
use text::Page;

// The places of a list.
const PLACES: usize = 8;

// Room for the text of any list: eight lines of at most 142 characters.
const LONGEST: usize = 1136;

// What a text is read as: the list of its numbers, and whether the text is that list's. Where it is not, it is to be refused with 37.
#[derive(Clone, Copy)]
pub struct Restored {
    pub list: [SavedSetting; 8],
    pub valid: bool,
}

// The numbers of a line, in the order of its text (open to other crates for the laws alone).
#[derive(Clone, Copy)]
pub enum FieldName {
    Version,
    Fine,
    Coarse,
    Gain,
    Divisor,
}

// The five numbers of a line, and the name of the one that is being read.
#[derive(Clone, Copy)]
struct Fields {
    version: u16,
    fine: u16,
    coarse: u16,
    gain: u16,
    divisor: u16,
    name: FieldName,
}

// The settings of the lines so far, how many they are, and the numbers of the line that stands open.
#[derive(Clone, Copy)]
struct LinesGathered {
    list: [SavedSetting; 8],
    count: usize,
    fields: Fields,
}

// The list whose text it is, if there is one.
pub fn read(text: &[u8]) -> Restored
    ensures { result ≡ restored text.now }
{
    let list = gather(text);
    if is_settings_text(text, list) {
        let valid = is_saved_list(list);
        return Restored { list, valid };
    }
    Restored { list, valid: false }
}

// Whether a list is ordered as it should be. None holds version 0, and one that is not ordered so is refused first.
fn is_saved_list(list: [SavedSetting; 8]) -> bool
    ensures { result ≡ is_saved_list list }
{
    match find_held(list, 0) {
        Ok(_) => true,
        Err(refusal) => refusal == Refusal::VERSION_NOT_HELD,
    }
}

// Whether a text is a list's.
fn is_settings_text(text: &[u8], list: [SavedSetting; 8]) -> bool
    ensures { result ≡ is_like text.now (settings_text list) }
{
    let mut whole = [0u8; LONGEST];
    let mut page = Page::new(&mut whole);
    put_settings(list, &mut page);
    let n = page.used;
    is_like(text, &whole[..n])
}

// The list of a text's numbers.
fn gather(text: &[u8]) -> [SavedSetting; 8]
    ensures { result ≡ numbers_of text.now }
{
    let mut gathered = nothing_gathered();
    for c in text {
        gathered = gather_next(gathered, *c);
    }
    let all = end_line(gathered);
    all.list
}

#[tactic(auto, unfolding(crate::specs::SettingsText::gathered_after))]
fn gather_next(gathered: LinesGathered, c: u8) -> LinesGathered
    ensures { result ≡ gathered_after gathered c }
{
    if c == b'\n' {
        return end_line(gathered);
    }
    LinesGathered {
        fields: read_field(gathered.fields, c),
        ..gathered
    }
}

fn nothing_gathered() -> LinesGathered
    ensures { result ≡ nothing_gathered }
{
    LinesGathered {
        list: [SavedSetting::UNUSED; 8],
        count: 0,
        fields: no_fields(),
    }
}

// With the open line's setting in its place; lines past the eighth have none.
fn end_line(gathered: LinesGathered) -> LinesGathered
    ensures { result ≡ with_setting_line gathered }
{
    let mut list = gathered.list;
    let count = gathered.count;
    if count < PLACES {
        list[count] = setting_of(gathered.fields);
        return LinesGathered {
            list,
            count: count + 1,
            fields: no_fields(),
        };
    }
    LinesGathered {
        fields: no_fields(),
        ..gathered
    }
}

fn no_fields() -> Fields
    ensures { result ≡ no_fields }
{
    Fields {
        version: 0,
        fine: 0,
        coarse: 0,
        gain: 0,
        divisor: 0,
        name: FieldName::Version,
    }
}

fn setting_of(fields: Fields) -> SavedSetting
    ensures { result ≡ setting_of_fields fields }
{
    // No struct update: the fields are of another type.
    SavedSetting {
        version: fields.version,
        fine: fields.fine,
        coarse: fields.coarse,
        gain: (fields.gain % 256) as u8,
        divisor: (fields.divisor % 256) as u8,
    }
}

// The numbers after a character more: a digit makes the one that is being read longer, a colon or a comma ends it.
fn read_field(fields: Fields, c: u8) -> Fields
    ensures { result ≡ fields_after fields c }
{
    if b'0' <= c {
        if c <= b'9' {
            return with_digit(fields, c);
        }
        if c == b':' {
            return with_field(fields);
        }
        return fields;
    }
    if c == b',' {
        return with_field(fields);
    }
    fields
}

fn with_digit(fields: Fields, c: u8) -> Fields
    requires { 0x30 ≤ c }
    ensures { result ≡ with_digit fields c }
{
    match fields.name {
        FieldName::Version => Fields {
            version: with_one_more(fields.version, c),
            ..fields
        },
        FieldName::Fine => Fields {
            fine: with_one_more(fields.fine, c),
            ..fields
        },
        FieldName::Coarse => Fields {
            coarse: with_one_more(fields.coarse, c),
            ..fields
        },
        FieldName::Gain => Fields {
            gain: with_one_more(fields.gain, c),
            ..fields
        },
        FieldName::Divisor => Fields {
            divisor: with_one_more(fields.divisor, c),
            ..fields
        },
    }
}

// A number with a digit more; it starts again from 0 after 65,535.
fn with_one_more(n: u16, c: u8) -> u16
    requires { 0x30 ≤ c }
    ensures { result ≡ with_one_more n c }
{
    let number = (10 * n as u32 + (c - b'0') as u32) % 65536;
    number as u16
}

fn with_field(fields: Fields) -> Fields
    ensures { result ≡ with_field fields }
{
    Fields {
        name: next_name(fields.name),
        ..fields
    }
}

// The number after one in a line; the divisor is the last.
fn next_name(name: FieldName) -> FieldName
    ensures { result ≡ next_name name }
{
    match name {
        FieldName::Version => FieldName::Fine,
        FieldName::Fine => FieldName::Coarse,
        FieldName::Coarse => FieldName::Gain,
        FieldName::Gain => FieldName::Divisor,
        FieldName::Divisor => FieldName::Divisor,
    }
}

// Whether a text is another: its carriage returns don't count, and the other's last newline may be missing.
fn is_like(text: &[u8], whole: &[u8]) -> bool
    ensures { result ≡ is_like text.now whole.now }
{
    let mut at: usize = 0;
    for c in text {
        if !stands(*c, whole, at) {
            return false;
        }
        at += covers(*c);
    }
    at_most_newline(whole, at)
}

// Whether nothing is left of the other text from a place on, or its last newline.
fn at_most_newline(whole: &[u8], at: usize) -> bool
    ensures { result ≡ at_most_newline (drop at whole.now) }
{
    whole.len() <= at || whole.len() == at + 1 && whole[at] == b'\n'
}

// How many characters of the other text a character is.
fn covers(c: u8) -> usize
    ensures { (result ≡ cover_of c) × (result ≤ 1) }
{
    if c == b'\r' {
        return 0;
    }
    1
}

// Whether a character may stand where the other text is at a place.
#[tactic(auto, unfolding(crate::specs::SettingsText::may_stand))]
fn stands(c: u8, whole: &[u8], at: usize) -> bool
    ensures { result ≡ may_stand c (drop at whole.now) }
{
    c == b'\r' || at < whole.len() && whole[at] == c
}
