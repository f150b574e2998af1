// The eight places of a list of saved settings, by value (02, A11): looked through, and a setting put into them.
//
// In: the eight places, in any order of versions. Out: whether they are in order, the newest version, the setting under a version, the places with a
// setting more. Nothing is refused, but that a version is not held: 30. Cost: constant.

#![tactic(auto)]

ghost use Rattle.std.specs.Prelude.{◌≡◌};
ghost use Rattle.saved_setting.specs.SavedSettings.{held_reply, may_follow, versions_in_order, newest_version, look_up, saved_into};

use refusal::Refusal;
use saved_setting::{PLACES, SavedSetting};

// Whether the used places come first, oldest first, with versions in unbroken sequence.
pub fn in_order(places: [SavedSetting; PLACES]) -> bool
    ensures { result ≡ versions_in_order places }
{
    for i in 1..PLACES {
        if !may_follow(places[i - 1], places[i]) {
            return false;
        }
    }
    true
}

// The version of the last used place; 0 where none is used.
pub fn newest_version(places: [SavedSetting; PLACES]) -> u16
    ensures { result ≡ newest_version places }
{
    let mut newest: u16 = 0;
    for place in &places {
        if place.version != 0 {
            newest = place.version;
        }
    }
    newest
}

// The first setting that has the version.
pub fn look_up(places: [SavedSetting; PLACES], version: u16) -> Result<SavedSetting, Refusal>
    ensures { held_reply result ≡ look_up version places }
{
    for setting in &places {
        if setting.version == version {
            return Ok(*setting);
        }
    }
    Err(Refusal::VERSION_NOT_HELD)
}

// A setting in the first unused place; where all are used, at the end, and the oldest is dropped.
pub fn save_into(
    mut places: [SavedSetting; PLACES],
    setting: SavedSetting,
) -> [SavedSetting; PLACES]
    ensures { result ≡ saved_into setting places }
{
    for i in 0..PLACES {
        if places[i].version == 0 {
            places[i] = setting;
            return places;
        }
    }
    let mut newer = [setting; PLACES];
    newer[..PLACES - 1].copy_from_slice(&places[1..]);
    newer
}

// Whether a place may stand after another: an unused one, or the next version after a used one.
#[tactic(auto, unfolding(saved_setting::specs::SavedSettings::may_follow))]
fn may_follow(before: SavedSetting, after: SavedSetting) -> bool
    ensures { result ≡ may_follow before after }
{
    after.version == 0 || (before.version != 0 && before.version as u32 + 1 == after.version as u32)
}
