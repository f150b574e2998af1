// The two sensor profiles (paper 01, 'Line layout').
//
// A profile gives its lengths and its filler byte; crate `line_layout` says by it what a line may hold. A number other than 0 or 1 is no profile. What
// a place of a body may hold is a rule, and a rule says which bytes those are. Cost: constant.

#![tactic(auto)]

ghost use Rattle.std.specs.Prelude.{◌≡◌};
ghost use Rattle.profile.specs.Profile.{profile_numbered, body_length, image_start, image_length, gap_start};
ghost use Rattle.profile.specs.Layout.{is_pixel, allows};

// Profile 0 is the VV5404 and VV6404 sensor, profile 1 the VV5300 in 8-bit conversion.
#[derive(Clone, Copy)]
pub enum Profile {
    VV5404,
    VV5300,
}

// What a place of a body may hold: the filler byte, 01 to FE, or any byte.
#[derive(Clone, Copy)]
pub enum Rule {
    Filler,
    Pixel,
    Any,
}

impl Profile {
    // The byte that fills places without data.
    pub const FILLER: u8 = 7;
    // The null byte, which follows the gap bytes.
    pub const NULL: u8 = 255;
    // The pixels of a VV5404's line, which are its whole body.
    pub const WIDTH: usize = 356;
    // The length of the longest body.
    pub const LONGEST: usize = Profile::WIDTH;

    // The profile with this number: none but 0 and 1 have one.
    #[tactic(auto, unfolding(crate::specs::Profile::profile_numbered))]
    pub fn numbered(n: u8) -> Option<Profile>
        ensures { result ≡ profile_numbered n }
    {
        match n {
            0 => Some(Profile::VV5404),
            1 => Some(Profile::VV5300),
            _ => None,
        }
    }

    // The bytes of a body.
    pub fn body_length(self) -> usize
        ensures { result ≡ body_length self }
    {
        match self {
            Profile::VV5404 => Profile::WIDTH,
            Profile::VV5300 => 168,
        }
    }

    // The place of a body's first image byte.
    pub fn image_start(self) -> usize
        ensures { result ≡ image_start self }
    {
        match self {
            Profile::VV5404 => 0,
            Profile::VV5300 => 4,
        }
    }

    // The image bytes of a body.
    pub fn image_length(self) -> usize
        ensures { result ≡ image_length self }
    {
        match self {
            Profile::VV5404 => Profile::WIDTH,
            Profile::VV5300 => 160,
        }
    }

    // The place in a gap's text, in nibbles from its code's first, from which it holds nothing but F.
    pub fn gap_start(self) -> u32
        ensures { result ≡ gap_start self }
    {
        match self {
            Profile::VV5404 => 2,
            Profile::VV5300 => 6,
        }
    }
}

impl Rule {
    // Whether a place under this rule may hold the byte.
    pub fn allows(self, byte: u8) -> bool
        ensures { result ≡ allows self byte }
    {
        match self {
            Rule::Filler => byte == Profile::FILLER,
            Rule::Pixel => is_pixel(byte),
            Rule::Any => true,
        }
    }
}

// Whether the byte is a pixel or a mean: 01 to FE.
pub fn is_pixel(byte: u8) -> bool
    ensures { result ≡ is_pixel byte }
{
    byte != 0 && byte != Profile::NULL
}
