// A saved exposure setting (02, A11), and the eight places of a list of them.
//
// In: a setting that is wanted, or one that is saved. Out: whether it may be saved, what is saved of it, the same under another version. Nothing is
// refused: crate `saved_places` answers what is asked of eight places, `saved_lent` of a lent list. Cost: constant.

#![tactic(auto)]

ghost use Rattle.std.specs.Prelude.{◌≡◌};
ghost use Rattle.saved_setting.specs.SavedSettings.{is_allowed, lesser, clipped, renumbered};

use refusal::Refusal;

// The places of a list.
pub const PLACES: usize = 8;

// A saved setting. Version 0 marks an unused place, whose other fields say nothing.
#[derive(Clone, Copy)]
pub struct SavedSetting {
    pub version: u16,
    pub fine: u16,
    pub coarse: u16,
    pub gain: u8,
    pub divisor: u8,
}

impl SavedSetting {
    // An unused place.
    pub const UNUSED: SavedSetting = SavedSetting {
        version: 0,
        fine: 0,
        coarse: 0,
        gain: 0,
        divisor: 0,
    };
}

// A setting that is to be saved, for a frame rate.
#[derive(Clone, Copy)]
pub struct Wanted {
    pub fine: u16,
    pub coarse: u16,
    pub gain: u8,
    pub divisor: u8,
    pub rate: u8,
}

// The eight places, oldest first, after a call, and what saving is answered, and going back: the new version, or a refusal.
#[derive(Clone, Copy)]
pub struct SavedPlaces {
    pub answer: Result<u16, Refusal>,
    pub places: [SavedSetting; PLACES],
}

// Whether a setting may be saved: its gain code, divisor and frame rate.
#[tactic(auto, unfolding(crate::specs::SavedSettings::is_allowed))]
pub fn is_allowed(wanted: Wanted) -> bool
    ensures { result ≡ is_allowed wanted }
{
    exposure::is_gain(wanted.gain as u32)
        && wanted.divisor <= exposure::DIVISOR_LIMIT
        && (wanted.rate == exposure::RATE_25 || wanted.rate == exposure::RATE_30)
}

// What is saved of a wanted setting: fine and coarse exposure clipped. Its version is still to be given.
pub fn clip(wanted: Wanted) -> SavedSetting
    ensures { result ≡ clipped wanted }
{
    SavedSetting {
        version: 0,
        fine: lesser(wanted.fine, exposure::fine_limit(wanted.rate)),
        coarse: lesser(wanted.coarse, exposure::COARSE_LIMIT),
        gain: wanted.gain,
        divisor: wanted.divisor,
    }
}

fn lesser(n: u16, limit: u16) -> u16
    ensures { result ≡ lesser n limit }
{
    if n <= limit {
        return n;
    }
    limit
}

// The same setting under another version.
pub fn renumber(setting: SavedSetting, version: u16) -> SavedSetting
    ensures { result ≡ renumbered setting version }
{
    SavedSetting { version, ..setting }
}
