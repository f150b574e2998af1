// The text of a list of saved settings, which a person can read and edit: a line for each used place, oldest first.
//
//     version 12: fine 360, coarse 302, gain 3, divisor 1
//
// In: a list, a setting, or a name and a number, and a page. Out: its text on the page, as far as there is room.
// Nothing is refused. Crate `saved_text` reads such a text. Cost: linear in the text.

#![tactic(auto)]

ghost use Rattle.text.specs.Pages.{Writes};
ghost use Rattle.saved_lines.specs.SavedLines.{field, setting_line, place_line, settings_text};

use saved_setting::SavedSetting;
use text::Page;

// The text of a list.
pub fn put_settings(list: [SavedSetting; 8], page: &mut Page<'_>)
    ensures { Writes (settings_text list) page.old page.new }
{
    for setting in list {
        put_place(setting, page);
    }
}

fn put_place(setting: SavedSetting, page: &mut Page<'_>)
    ensures { Writes (place_line setting) page.old page.new }
{
    let version = setting.version;
    if version != 0 {
        put_setting(setting, page);
    }
}

// The line of a setting.
pub fn put_setting(setting: SavedSetting, page: &mut Page<'_>)
    ensures { Writes (setting_line setting) page.old page.new }
{
    put_field(b"version ", setting.version, page);
    put_field(b": fine ", setting.fine, page);
    put_field(b", coarse ", setting.coarse, page);
    put_field(b", gain ", setting.gain as u16, page);
    put_field(b", divisor ", setting.divisor as u16, page);
    page.put(b"\n");
}

// A name and a number.
pub fn put_field(name: &[u8], n: u16, page: &mut Page<'_>)
    ensures { Writes (field name.now n) page.old page.new }
{
    page.put(name);
    page.put_decimal(n as u64);
}
