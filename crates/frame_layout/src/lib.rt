// The layout of a frame: of profile 0 (paper 01, 'Frames of profile 0') and of the VV5300 (paper 000, 'Frame Level Formatting').
//
// In: the profile, whether borders are on, and a place, counted from 0. Out: whether a line is due there; the place that settles the borders,
// and the last one. Nothing is refused. Cost: constant.

#![tactic(auto)]

ghost use Rattle.std.specs.Prelude.{◌≡◌};
ghost use Rattle.frame_layout.specs.FrameLayout.{borders_on, borders_off, layout, last_place, end_place, settling_place, kind_at_place, stands_at, number_due, due_at};
ghost use Rattle.frame_layout.specs.Places.{kind_within};

use line_code::Kind;
use profile::Profile;

// Whether a frame shows its borders.
#[derive(Clone, Copy)]
pub enum Borders {
    On,
    Off,
}

// The places of a frame's first BK and BL line.
pub const FIRST_BLACK: u16 = 1;

const FIRST_BLANK: u16 = 3;

// A frame's layout: the places of its first and last visible line, of its EOF line and of its last line.
#[derive(Clone, Copy)]
struct Layout {
    from: u16,
    to: u16,
    end: u16,
    last: u16,
}

// The place of a frame's last line.
pub fn last_place(profile: Profile) -> u16
    ensures { result ≡ last_place profile }
{
    let on = borders_on(profile);
    on.last
}

// The place whose line settles the borders: that of the first visible line with borders on.
pub fn settling_place(profile: Profile) -> u16
    ensures { result ≡ settling_place profile }
{
    let on = borders_on(profile);
    on.from
}

// The layout of each profile, borders on and off.
fn borders_on(profile: Profile) -> Layout
    ensures { result ≡ borders_on profile }
{
    match profile {
        Profile::VV5404 => Layout {
            from: 10,
            to: 301,
            end: 302,
            last: 303,
        },
        Profile::VV5300 => Layout {
            from: 11,
            to: 134,
            end: 145,
            last: 146,
        },
    }
}

fn borders_off(profile: Profile) -> Layout
    ensures { result ≡ borders_off profile }
{
    match profile {
        Profile::VV5404 => Layout {
            from: 12,
            to: 299,
            end: 300,
            last: 303,
        },
        Profile::VV5300 => Layout {
            from: 13,
            to: 132,
            end: 145,
            last: 146,
        },
    }
}

impl Layout {
    // The kind at a place.
    fn kind_within(self, place: u16) -> Kind
        ensures { result ≡ kind_within self place }
    {
        if place < FIRST_BLACK {
            return Kind::SOF;
        }
        if place < FIRST_BLANK {
            return Kind::BK;
        }
        if place < self.from {
            return Kind::BL;
        }
        if place <= self.to {
            return Kind::VL;
        }
        if place == self.end {
            return Kind::EOF;
        }
        Kind::BL
    }
}

impl Borders {
    // The layout of a frame.
    fn layout(self, profile: Profile) -> Layout
        ensures { result ≡ layout profile self }
    {
        match self {
            Borders::On => borders_on(profile),
            Borders::Off => borders_off(profile),
        }
    }

    // Whether a line of this kind stands at a place.
    fn stands_at(self, profile: Profile, place: u16, kind: u8) -> bool
        ensures { result ≡ stands_at profile self place kind }
    {
        kind == self.kind_at_place(profile, place).number()
    }

    // The kind of the line at a place.
    pub fn kind_at_place(self, profile: Profile, place: u16) -> Kind
        ensures { result ≡ kind_at_place profile self place }
    {
        self.layout(profile).kind_within(place)
    }

    // The place of the EOF line.
    pub fn end_place(self, profile: Profile) -> u16
        ensures { result ≡ end_place profile self }
    {
        let layout = self.layout(profile);
        layout.end
    }

    // Whether this number is due at a place: the place's own, or, after the EOF line, any.
    fn number_due(self, profile: Profile, place: u16, number: u16) -> bool
        ensures { result ≡ number_due profile self place number }
    {
        number == place || place > self.layout(profile).end
    }

    // Whether a line of this kind and number is due at a place.
    pub fn due_at(self, profile: Profile, place: u16, kind: u8, number: u16) -> bool
        ensures { result ≡ due_at profile self place kind number }
    {
        self.stands_at(profile, place, kind) && self.number_due(profile, place, number)
    }
}
