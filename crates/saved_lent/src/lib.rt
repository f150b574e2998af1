// A lent list of eight saved exposure settings (02, A11): save one, find one, go back to one.
//
// In: a list of eight places, the used ones first, oldest first, with versions in unbroken sequence; version 0 marks an unused place. Out: the new
// version, or the setting found. Refused, in this order, and the list is unchanged: 37 the list is not eight long or not ordered as said, 29 gain,
// divisor or a frame rate other than 25 or 30, 30 version not held (0 never is), 31 no version number left.
// Each function copies the eight places, leaves the work to its namesake of crate `saved_places`, and stores what that gives.

#![tactic(auto)]

ghost use Rattle.std.specs.Prelude.{◌≡◌, length};
ghost use Rattle.saved_setting.specs.SavedSettings.{held_reply, saved_wanted, found_in, saved_again, Leaves};

use refusal::Refusal;
use saved_places::{back_in, find_in, save_in};
use saved_setting::{PLACES, SavedSetting, Wanted};

// Saves a setting, fine and coarse exposure clipped: in the first unused place, or, where eight stand, in the place of the oldest.
pub fn save(list: &mut [SavedSetting], wanted: Wanted) -> Result<u16, Refusal>
    ensures { Leaves (saved_wanted list.old wanted) result list.new }
{
    if list.len() != PLACES {
        return Err(Refusal::NOT_SAVED_SETTINGS);
    }
    let o = save_in(places_in(list), wanted);
    list.copy_from_slice(&o.places);
    o.answer
}

// The setting under a version.
pub fn find(list: &[SavedSetting], version: u16) -> Result<SavedSetting, Refusal>
    ensures { held_reply result ≡ found_in list.now version }
{
    if list.len() != PLACES {
        return Err(Refusal::NOT_SAVED_SETTINGS);
    }
    find_in(places_in(list), version)
}

// Saves a copy of the setting under a version, as it was saved then, under a new version.
pub fn go_back(list: &mut [SavedSetting], version: u16) -> Result<u16, Refusal>
    ensures { Leaves (saved_again list.old version) result list.new }
{
    if list.len() != PLACES {
        return Err(Refusal::NOT_SAVED_SETTINGS);
    }
    let o = back_in(places_in(list), version);
    list.copy_from_slice(&o.places);
    o.answer
}

// The eight places of a list.
fn places_in(list: &[SavedSetting]) -> [SavedSetting; PLACES]
    requires { length list.now ≡ 8 }
    ensures { result ≡ list.now }
{
    let mut places = [SavedSetting::UNUSED; PLACES];
    places.copy_from_slice(list);
    places
}
