// Requests about saved settings (paper 02, A11): save, find, go back, list, and the messages to send.
//
// In: a request, and the text of a list (crate saved_text). Out: the text of the list afterwards, and what is said of the request, each put at the
// front of a lent buffer as far as there is room; whether the list is another; and whether the request is refused. A text that is no list's is
// refused with 37, and nothing is put for it; for the others see crate saved_lent. What was clipped on saving is said. Cost: linear in the text.

#![tactic(auto)]

ghost use Rattle.text.specs.Pages.{Writes};
ghost use Rattle.saved_setting.specs.SavedSettings.{found_in};
ghost use Rattle.settings_request.specs.declared.Request.TheVariants.{Save, Find, Back, ListAll, Messages};
ghost use Rattle.settings_request.specs.SettingsRequest.{refusing_request, held_line, listed_text, request_effect, Responds, service, Serves};

use refusal::Refusal;
use saved_held::{back_held, find_held, save_held};
use saved_lines::{put_setting, put_settings};
use saved_setting::{SavedSetting, Wanted};
use settings_replies::{put_notes, put_refusal, put_writes};
use text::Page;

// What is asked for, of a version where it needs one.
#[derive(Clone, Copy)]
pub enum Request {
    Save(Wanted),
    Find(u16),
    Back(u16),
    ListAll,
    Messages(u16),
}

// The list afterwards, the length of what is said, whether the list is another, and whether the request is refused.
#[derive(Clone, Copy)]
pub struct Response {
    pub list: [SavedSetting; 8],
    pub said: usize,
    pub changed: bool,
    pub refused: bool,
}

// The length of the list's text afterwards, and of what is said; and as above.
#[derive(Clone, Copy)]
pub struct Served {
    pub file: usize,
    pub said: usize,
    pub changed: bool,
    pub refused: bool,
}

// What a request does to the text of a list. No struct update: the response is of another type.
pub fn serve(request: Request, text: &[u8], file: &mut [u8], out: &mut [u8]) -> Served
    ensures { Serves (service request text.now) file.old file.new out.old out.new result }
{
    let read = saved_text::read(text);
    let list = read.list;
    if read.valid {
        let response = respond(request, list, out);
        let after = response.list;
        let mut page = Page::new(file);
        put_settings(after, &mut page);
        return Served {
            file: page.used,
            said: response.said,
            changed: response.changed,
            refused: response.refused,
        };
    }
    let mut page = Page::new(out);
    put_refusal(Refusal::NOT_SAVED_SETTINGS, &mut page);
    Served {
        file: 0,
        said: page.used,
        changed: false,
        refused: true,
    }
}

// What a request does to a list.
fn respond(request: Request, list: [SavedSetting; 8], out: &mut [u8]) -> Response
    ensures { Responds (request_effect request list) out.old out.new result }
{
    match request {
        Request::Save(wanted) => respond_save(wanted, list, out),
        Request::Find(version) => respond_find(version, list, out),
        Request::Back(version) => respond_back(version, list, out),
        Request::ListAll => respond_list(list, out),
        Request::Messages(version) => respond_messages(version, list, out),
    }
}

fn respond_save(wanted: Wanted, list: [SavedSetting; 8], out: &mut [u8]) -> Response
    ensures { Responds (request_effect (Save wanted) list) out.old out.new result }
{
    let kept = save_held(list, wanted);
    let after = kept.places;
    let answer = kept.answer;
    match answer {
        Ok(version) => {
            let mut page = Page::new(out);
            put_held(version, after, &mut page);
            put_notes(wanted, &mut page);
            Response {
                list: after,
                said: page.used,
                changed: true,
                refused: false,
            }
        }
        Err(refusal) => refuse(refusal, after, out),
    }
}

fn respond_back(version: u16, list: [SavedSetting; 8], out: &mut [u8]) -> Response
    ensures { Responds (request_effect (Back version) list) out.old out.new result }
{
    let kept = back_held(list, version);
    let after = kept.places;
    let answer = kept.answer;
    match answer {
        Ok(newest) => {
            let mut page = Page::new(out);
            put_held(newest, after, &mut page);
            Response {
                list: after,
                said: page.used,
                changed: true,
                refused: false,
            }
        }
        Err(refusal) => refuse(refusal, after, out),
    }
}

fn respond_find(version: u16, list: [SavedSetting; 8], out: &mut [u8]) -> Response
    ensures { Responds (request_effect (Find version) list) out.old out.new result }
{
    match find_held(list, version) {
        Ok(setting) => {
            let mut page = Page::new(out);
            put_setting(setting, &mut page);
            Response {
                list,
                said: page.used,
                changed: false,
                refused: false,
            }
        }
        Err(refusal) => refuse(refusal, list, out),
    }
}

fn respond_messages(version: u16, list: [SavedSetting; 8], out: &mut [u8]) -> Response
    ensures { Responds (request_effect (Messages version) list) out.old out.new result }
{
    match find_held(list, version) {
        Ok(setting) => {
            let mut page = Page::new(out);
            put_writes(setting, &mut page);
            Response {
                list,
                said: page.used,
                changed: false,
                refused: false,
            }
        }
        Err(refusal) => refuse(refusal, list, out),
    }
}

fn respond_list(list: [SavedSetting; 8], out: &mut [u8]) -> Response
    ensures { Responds (request_effect ListAll list) out.old out.new result }
{
    let mut page = Page::new(out);
    put_list(list, &mut page);
    Response {
        list,
        said: page.used,
        changed: false,
        refused: false,
    }
}

fn put_list(list: [SavedSetting; 8], page: &mut Page<'_>)
    ensures { Writes (listed_text list) page.old page.new }
{
    let oldest = list[0];
    let version = oldest.version;
    if version == 0 {
        page.put(b"nothing is saved yet\n");
    } else {
        put_settings(list, page);
    }
}

// The line of the setting under a version, or why there is none.
fn put_held(version: u16, list: [SavedSetting; 8], page: &mut Page<'_>)
    ensures { Writes (held_line (found_in list version)) page.old page.new }
{
    match find_held(list, version) {
        Ok(setting) => put_setting(setting, page),
        Err(refusal) => put_refusal(refusal, page),
    }
}

fn refuse(refusal: Refusal, list: [SavedSetting; 8], out: &mut [u8]) -> Response
    ensures { Responds (refusing_request list refusal.0) out.old out.new result }
{
    let mut page = Page::new(out);
    put_refusal(refusal, &mut page);
    Response {
        list,
        said: page.used,
        changed: false,
        refused: true,
    }
}
