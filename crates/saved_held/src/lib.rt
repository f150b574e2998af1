// A list of eight saved exposure settings by value (02, A11): save one, find one, go back to one.
//
// In, out and refused as in crate `saved_lent`, whose functions are lent the list here. The list after a call is part of what it gives.

#![tactic(auto)]

ghost use Rattle.std.specs.Prelude.{◌≡◌};
ghost use Rattle.saved_setting.specs.SavedSettings.{held_reply, saved_wanted, found_in, saved_again, Leaves};

use refusal::Refusal;
use saved_lent::{find, go_back, save};
use saved_setting::{PLACES, SavedPlaces, SavedSetting, Wanted};

// `save` for a list by value.
pub fn save_held(held: [SavedSetting; PLACES], wanted: Wanted) -> SavedPlaces
    ensures { Leaves (saved_wanted held wanted) result.answer result.places }
{
    let mut list = held;
    let answer = save(&mut list, wanted);
    SavedPlaces {
        answer,
        places: list,
    }
}

// `find` for a list by value. A list is in order exactly where version 0 is answered 30, not 37.
pub fn find_held(held: [SavedSetting; PLACES], version: u16) -> Result<SavedSetting, Refusal>
    ensures { held_reply result ≡ found_in held version }
{
    find(&held, version)
}

// `go_back` for a list by value.
pub fn back_held(held: [SavedSetting; PLACES], version: u16) -> SavedPlaces
    ensures { Leaves (saved_again held version) result.answer result.places }
{
    let mut list = held;
    let answer = go_back(&mut list, version);
    SavedPlaces {
        answer,
        places: list,
    }
}
