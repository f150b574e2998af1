// What a capture tool in C or Rust calls: eight saved exposure settings in lent bytes (paper 02, A11).
//
// Each exported function takes numbers, slices (in C a pointer and then a length) and places for what else it tells (pointers); no two of
// its slices may overlap. Nothing is asked of what they hold: every call is answered, and room beyond what it writes stays as it was. The
// answer is 0 or the refusal. A refused call leaves the list, and what it was to fill, as it was; a version or a length is then 0.
//
//   fluturenc_settings_length()                                              the bytes of a list: 64
//   fluturenc_settings_save(list, fine, coarse, gain, divisor, rate, version)   saves a setting under a new version: 37, 29, 31
//   fluturenc_settings_find(list, version, setting)                          the eight bytes of the setting under a version: 37, 30, 12
//   fluturenc_settings_back(list, version, new)                              saves a copy of it under a new version: 37, 30, 31
//   fluturenc_settings_messages(list, version, messages, written)            the messages that write it to a sensor: 37, 30, 12
//
// A list is moved and copied as bytes: eight places of 8 bytes, the used ones first, oldest first. A place is a setting's version, fine and coarse
// exposure, each in two bytes, high byte first, its gain code and its clock divisor. Version 0 marks an unused place, so a fresh list is all 0.
//
// Crate fluturenc_settings_c exports these functions under their names, for C and Rust.

#![tactic(auto)]

ghost use Rattle.std.specs.Prelude.{◌≡◌, [], ◌∷◌, ◌+◌, ◌≤◌, length, get_or, drop};
ghost use Rattle.std.proofs.lemmas.List.Edits.{sets};
ghost use Rattle.exported_call.specs.LentCall.{StateGives, WriteGives};
ghost use Rattle.lent_buffer.specs.Filled.{Gives};
ghost use Rattle.line_records.specs.Lines.{from_two, in_two};
ghost use Rattle.saved_setting.specs.SavedSettings.{saved_reply, held_reply, saved_wanted, found_in, saved_again};
ghost use Rattle.fluturenc_settings.specs.SavedBytes.{place_size, list_size, place_bytes, list_bytes, front_setting, list_in, wanted_of, SaveGives, found_call, messages_of};

use lent_buffer::Filled;
use refusal::Refusal;
use saved_setting::{PLACES, SavedPlaces, SavedSetting, Wanted};

// The bytes of a place, and of a list.
const PLACE: usize = 8;

const LIST: usize = 64;

// The bytes of a list.
pub fn fluturenc_settings_length() -> usize
    ensures { result ≡ list_size }
{
    LIST
}

// Saves a setting, fine and coarse exposure clipped. Refused: 37 not a list of 64 bytes in order, 29 gain, divisor or frame rate, 31 no version left.
#[tactic(auto, unfolding(crate::specs::SavedBytes::list_in))]
pub fn fluturenc_settings_save(
    list: &mut [u8],
    fine: u16,
    coarse: u16,
    gain: u8,
    divisor: u8,
    rate: u8,
    version: &mut u16,
) -> u8
    ensures { SaveGives (saved_wanted (list_in list.old) (wanted_of fine coarse gain divisor rate)) result version.new list.old list.new }
{
    if list.len() == LIST {
        let places = places_in(list);
        let wanted = Wanted {
            fine,
            coarse,
            gain,
            divisor,
            rate,
        };
        let saved = saved_places::save_in(places, wanted);
        return store_saved(saved, list, version);
    }
    *version = 0;
    Refusal::NOT_SAVED_SETTINGS.0
}

// Puts the setting under a version at the front of what is lent for it. Refused: 37, 30 version not held, 12 fewer than eight bytes are lent.
pub fn fluturenc_settings_find(list: &[u8], version: u16, setting: &mut [u8]) -> u8
    ensures { StateGives (found_call (found_in (list_in list.now) version) setting.old) result setting.new }
{
    match held_in(list, version) {
        Ok(s) => {
            if setting.len() < PLACE {
                return Refusal::NO_ROOM.0;
            }
            store_setting(s, setting, 0);
            0
        }
        Err(refusal) => refusal.0,
    }
}

// Saves a copy of the setting under a version, as it was saved then. Refused: 37, 30, 31.
#[tactic(auto, unfolding(crate::specs::SavedBytes::list_in))]
pub fn fluturenc_settings_back(list: &mut [u8], version: u16, new: &mut u16) -> u8
    ensures { SaveGives (saved_again (list_in list.old) version) result new.new list.old list.new }
{
    if list.len() == LIST {
        let places = places_in(list);
        let saved = saved_places::back_in(places, version);
        return store_saved(saved, list, new);
    }
    *new = 0;
    Refusal::NOT_SAVED_SETTINGS.0
}

// Writes the two-wire messages that write the setting under a version to a sensor's registers, 18 bytes. Refused: 37, 30, 12.
pub fn fluturenc_settings_messages(
    list: &[u8],
    version: u16,
    messages: &mut [u8],
    written: &mut usize,
) -> u8
    ensures { WriteGives (messages_of (found_in (list_in list.now) version) (length messages.old)) result written.new messages.old messages.new }
{
    let found = held_in(list, version);
    let filled = put_found(found, messages);
    exported_call::number_written(filled, written)
}

// The messages of what is found, or why nothing is.
fn put_found(found: Result<SavedSetting, Refusal>, messages: &mut [u8]) -> Filled
    ensures { Gives (messages_of (held_reply found) (length messages.old)) result messages.old messages.new }
{
    let pairs = saved_registers::pairs(found?);
    two_wire_write::write(&pairs, messages)
}

// The setting under a version of a list in bytes.
#[tactic(auto, unfolding(crate::specs::SavedBytes::list_in))]
fn held_in(list: &[u8], version: u16) -> Result<SavedSetting, Refusal>
    ensures { held_reply result ≡ found_in (list_in list.now) version }
{
    if list.len() == LIST {
        let places = places_in(list);
        return saved_places::find_in(places, version);
    }
    Err(Refusal::NOT_SAVED_SETTINGS)
}

// Stores the places that are saved, and tells the new version; or tells why nothing is, and the version is 0.
fn store_saved(saved: SavedPlaces, list: &mut [u8], version: &mut u16) -> u8
    requires { length list.old ≡ list_size }
    ensures { SaveGives (record { reply = saved_reply saved.answer; list = saved.places }) result version.new list.old list.new }
{
    let places = saved.places;
    let answer = saved.answer;
    match answer {
        Ok(v) => {
            store(places, list);
            *version = v;
            return 0;
        }
        Err(refusal) => {
            *version = 0;
            return refusal.0;
        }
    }
}

// The eight places of a list.
fn places_in(list: &[u8]) -> [SavedSetting; PLACES]
    requires { length list.now ≡ list_size }
    ensures { result ≡ list_in list.now }
{
    let mut places = [SavedSetting::UNUSED; PLACES];
    for i in 0..PLACES {
        places[i] = setting_at(list, PLACE * i);
    }
    places
}

// The setting whose bytes start at a byte.
#[tactic(auto, unfolding(crate::specs::SavedBytes::front_setting))]
fn setting_at(list: &[u8], at: usize) -> SavedSetting
    requires { at + place_size ≤ length list.now }
    ensures { result ≡ front_setting (drop at list.now) }
{
    SavedSetting {
        version: number_at(list, at),
        fine: number_at(list, at + 2),
        coarse: number_at(list, at + 4),
        gain: list[at + 6],
        divisor: list[at + 7],
    }
}

// The number whose high byte stands at a byte, and its low byte behind that.
fn number_at(list: &[u8], at: usize) -> u16
    requires { at + 2 ≤ length list.now }
    ensures { result ≡ from_two (get_or list.now at 0) (get_or list.now (at + 1) 0) }
{
    from_two(list[at], list[at + 1])
}

// A number from its high and its low byte.
fn from_two(high: u8, low: u8) -> u16
    ensures { result ≡ from_two high low }
{
    256 * high as u16 + low as u16
}

// Puts eight places into a list.
fn store(places: [SavedSetting; PLACES], list: &mut [u8])
    requires { length list.old ≡ list_size }
    ensures { list.new ≡ list_bytes places }
{
    for i in 0..PLACES {
        store_setting(places[i], list, PLACE * i);
    }
}

// Puts a setting's bytes into a buffer, from a byte on.
fn store_setting(s: SavedSetting, buffer: &mut [u8], at: usize)
    requires { at + place_size ≤ length buffer.old }
    ensures { buffer.new ≡ sets buffer.old at (place_bytes s) }
{
    let gain = s.gain;
    let divisor = s.divisor;
    store_number(s.version, buffer, at);
    store_number(s.fine, buffer, at + 2);
    store_number(s.coarse, buffer, at + 4);
    store_two(gain, divisor, buffer, at + 6);
}

// Puts a number's high and its low byte into a buffer.
fn store_number(n: u16, buffer: &mut [u8], at: usize)
    requires { at + 2 ≤ length buffer.old }
    ensures { buffer.new ≡ sets buffer.old at (in_two n) }
{
    store_two((n / 256) as u8, (n % 256) as u8, buffer, at);
}

fn store_two(first: u8, second: u8, buffer: &mut [u8], at: usize)
    requires { at + 2 ≤ length buffer.old }
    ensures { buffer.new ≡ sets buffer.old at (first ∷ second ∷ []) }
{
    buffer[at] = first;
    buffer[at + 1] = second;
}
