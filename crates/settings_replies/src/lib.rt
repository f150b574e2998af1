// What is said of saved settings (paper 02, A11): what was clipped, why a request is refused, and the messages that set a sensor so.
//
// In: a setting that was wanted, a refusal, or a saved setting. Out: its text on a page, as far as there is room. Cost: constant.

#![tactic(auto)]

ghost use Rattle.text.specs.Pages.{Writes};
ghost use Rattle.settings_replies.specs.SettingsWords.{fine_note, coarse_note, notes, settings_refusal, refused_request, writes_of};

use refusal::Refusal;
use saved_lines::put_field;
use saved_setting::{SavedSetting, Wanted};
use text::Page;
use two_wire_text::put_message;

// What of a setting was clipped when it was saved; nothing where all was saved as wanted.
pub fn put_notes(wanted: Wanted, page: &mut Page<'_>)
    ensures { Writes (notes wanted) page.old page.new }
{
    put_fine_note(wanted, page);
    put_coarse_note(wanted, page);
}

fn put_fine_note(wanted: Wanted, page: &mut Page<'_>)
    ensures { Writes (fine_note wanted) page.old page.new }
{
    let fine = wanted.fine;
    let rate = wanted.rate;
    let limit = exposure::fine_limit(rate);
    if limit < fine {
        put_field(b"fine ", fine, page);
        put_field(b" is above ", limit, page);
        put_field(b" at ", rate as u16, page);
        put_field(b" a second: ", limit, page);
        page.put(b" saved\n");
    }
}

fn put_coarse_note(wanted: Wanted, page: &mut Page<'_>)
    ensures { Writes (coarse_note wanted) page.old page.new }
{
    let coarse = wanted.coarse;
    if exposure::COARSE_LIMIT < coarse {
        put_field(b"coarse ", coarse, page);
        put_field(b" is above ", exposure::COARSE_LIMIT, page);
        put_field(b": ", exposure::COARSE_LIMIT, page);
        page.put(b" saved\n");
    }
}

// A refusal, with its number and in words.
pub fn put_refusal(refusal: Refusal, page: &mut Page<'_>)
    ensures { Writes (refused_request refusal.0) page.old page.new }
{
    put_field(b"REFUSED ", refusal.0 as u16, page);
    put_words(refusal, page);
}

fn put_words(refusal: Refusal, page: &mut Page<'_>)
    ensures { Writes (settings_refusal refusal.0) page.old page.new }
{
    if refusal == Refusal::BAD_SETTING {
        return page.put(
            b", gain takes 0, 1, 3 or 7, divisor 0 to 3, and the frame rate is 25 or 30\n",
        );
    }
    if refusal == Refusal::VERSION_NOT_HELD {
        return page.put(b", version not held: `list` shows those that are\n");
    }
    if refusal == Refusal::NO_VERSION_LEFT {
        return page.put(b", no version number is left after 65535: start a new file\n");
    }
    page.put(b", not a list of saved settings; the file is left as it is\n");
}

// The messages that set a sensor so, in hex, a line each.
pub fn put_writes(setting: SavedSetting, page: &mut Page<'_>)
    ensures { Writes (writes_of setting) page.old page.new }
{
    let p = saved_registers::pairs(setting);
    put_message(p[0], p[1], page);
    put_message(p[2], p[3], page);
    put_message(p[4], p[5], page);
    put_message(p[6], p[7], page);
    put_message(p[8], p[9], page);
    put_message(p[10], p[11], page);
}
