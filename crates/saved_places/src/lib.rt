// Saving, finding and going back in eight saved exposure settings by value (02, A11).
//
// In: the eight places, the used ones first, oldest first, and a setting that is wanted or a version. Out: what is answered, and the places
// afterwards. Refused, in this order, the places unchanged: 37 not in order, 29 gain, divisor or frame rate, 30 version not held, 31 no version
// number left. Crate `saved_lent` has the same over a lent list. Cost: constant.

#![tactic(auto)]

ghost use Rattle.std.specs.Prelude.{◌≡◌, Err};
ghost use Rattle.saved_setting.specs.SavedSettings.{held_reply, saved_next, saved_wanted, found_in, saved_again, Leaves};

use refusal::Refusal;
use saved_setting::{PLACES, SavedPlaces, SavedSetting, Wanted};

// Saves what is wanted, clipped: in the first unused place, or in the place of the oldest, which is dropped.
pub fn save_in(places: [SavedSetting; PLACES], wanted: Wanted) -> SavedPlaces
    ensures { Leaves (saved_wanted places wanted) result.answer result.places }
{
    if saved_search::in_order(places) {
        if saved_setting::is_allowed(wanted) {
            return save_next(places, saved_setting::clip(wanted));
        }
        return refused(Refusal::BAD_SETTING, places);
    }
    refused(Refusal::NOT_SAVED_SETTINGS, places)
}

// The setting under a version.
pub fn find_in(places: [SavedSetting; PLACES], version: u16) -> Result<SavedSetting, Refusal>
    ensures { held_reply result ≡ found_in places version }
{
    if saved_search::in_order(places) {
        if version == 0 {
            return Err(Refusal::VERSION_NOT_HELD);
        }
        return saved_search::look_up(places, version);
    }
    Err(Refusal::NOT_SAVED_SETTINGS)
}

// Saves a copy of the setting under a version, as it was saved then.
pub fn back_in(places: [SavedSetting; PLACES], version: u16) -> SavedPlaces
    ensures { Leaves (saved_again places version) result.answer result.places }
{
    match find_in(places, version) {
        Ok(setting) => save_next(places, setting),
        Err(refusal) => refused(refusal, places),
    }
}

// The greatest version.
const LAST_VERSION: u16 = 65535;

// Saves a setting as it is, under the next version.
fn save_next(places: [SavedSetting; PLACES], setting: SavedSetting) -> SavedPlaces
    ensures { Leaves (saved_next places setting) result.answer result.places }
{
    let newest = saved_search::newest_version(places);
    if newest == LAST_VERSION {
        return refused(Refusal::NO_VERSION_LEFT, places);
    }
    let version = newest + 1;
    SavedPlaces {
        answer: Ok(version),
        places: saved_search::save_into(places, saved_setting::renumber(setting, version)),
    }
}

fn refused(refusal: Refusal, places: [SavedSetting; PLACES]) -> SavedPlaces
    ensures { (result.answer ≡ Err refusal) × (result.places ≡ places) }
{
    SavedPlaces {
        answer: Err(refusal),
        places,
    }
}
