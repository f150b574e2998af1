// What the exposure settings of a VV5404 or VV6404 may be (004, Table 24, and the gain and clock divisor registers after it).

#![tactic(auto)]

ghost use Rattle.std.specs.Prelude.{◌≡◌};
ghost use Rattle.exposure.specs.Exposure.{is_gain, fine_limit};

// The frames a second that a sensor can send.
pub const RATE_25: u8 = 25;

pub const RATE_30: u8 = 30;

// The greatest fine exposure at each rate, and the greatest coarse exposure.
pub const FINE_LIMIT_25: u16 = 438;

pub const FINE_LIMIT_30: u16 = 360;

pub const COARSE_LIMIT: u16 = 302;

// The greatest clock divisor code.
pub const DIVISOR_LIMIT: u8 = 3;

// Whether a number is a gain code: 0, 1, 3 or 7, for a gain of 1, 2, 4 or 8.
#[tactic(auto, unfolding(crate::specs::Exposure::is_gain))]
pub fn is_gain(code: u32) -> bool
    ensures { result ≡ is_gain code }
{
    matches!(code, 0 | 1 | 3 | 7)
}

// The greatest fine exposure at 30 frames a second; at any other rate that at 25.
pub fn fine_limit(rate: u8) -> u16
    ensures { result ≡ fine_limit rate }
{
    if rate == RATE_30 {
        return FINE_LIMIT_30;
    }
    FINE_LIMIT_25
}
