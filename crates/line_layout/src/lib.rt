// The line layout of both sensor profiles (paper 01, 'Line layout').
//
// In: a profile, a line's kind, and a place, a body or two gap bytes. Out: what the place may hold; whether the body has the profile's length and
// each of its bytes is allowed at its place; whether the two bytes may follow the end of the line. Nothing is refused. Cost: constant, but for the
// scan of a body, which is linear.

#![tactic(auto)]

ghost use Rattle.std.specs.Prelude.{◌≡◌, ◌≤◌, get_or};
ghost use Rattle.line_code.specs.declared.Kind.TheVariants.{BK, SOF, EOF};
ghost use Rattle.profile.specs.declared.Rule.TheVariants.{Filler};
ghost use Rattle.profile.specs.Profile.{image_start};
ghost use Rattle.profile.specs.Layout.{rules, fits, both_are, both_pixels, gap_fits};
ghost use Rattle.line_layout.specs.Places.{border, averages_reach, rule_within, image_within, evenly};

use line_code::Kind;
use profile::{Profile, Rule};

// What a body of this kind may hold at a place; past the body's end: the filler.
pub fn rule_at(profile: Profile, kind: Kind, place: usize) -> Rule
    ensures { result ≡ get_or (rules profile kind) place Filler }
{
    match kind {
        Kind::BL => Rule::Filler,
        Kind::BK | Kind::VL => pixel_at(profile, place),
        Kind::SOF => register_at(profile, place),
        Kind::EOF => average_at(profile, place),
    }
}

// Whether a body has this profile's length, and each of its bytes is allowed at its place.
pub fn body_fits(profile: Profile, kind: Kind, body: &[u8]) -> bool
    ensures { result ≡ fits (rules profile kind) body.now }
{
    if body.len() != profile.body_length() {
        return false;
    }
    for (i, b) in body.iter().enumerate() {
        let rule = rule_at(profile, kind, i);
        if !rule.allows(*b) {
            return false;
        }
    }
    true
}

// Whether these two bytes may follow the end of a line of this kind.
pub fn gap_fits(profile: Profile, kind: Kind, first: u8, second: u8) -> bool
    ensures { result ≡ gap_fits profile kind first second }
{
    match profile {
        Profile::VV5404 => both_are(Profile::NULL, first, second),
        Profile::VV5300 => match kind {
            Kind::VL => both_pixels(first, second),
            Kind::BL | Kind::BK | Kind::SOF | Kind::EOF => {
                both_are(Profile::FILLER, first, second)
            }
        },
    }
}

// Where a body of each kind holds something else than the filler.

// In BK and VL: the image and its border.
fn pixel_at(profile: Profile, place: usize) -> Rule
    ensures { result ≡ get_or (rules profile BK) place Filler }
{
    image_at(profile, place, border(profile), Rule::Pixel)
}

// In SOF: the image's even places.
fn register_at(profile: Profile, place: usize) -> Rule
    ensures { result ≡ get_or (rules profile SOF) place Filler }
{
    at_even(place, image_at(profile, place, 0, Rule::Any))
}

// In EOF: the even places of the image's start that has bin averages.
fn average_at(profile: Profile, place: usize) -> Rule
    ensures { result ≡ get_or (rules profile EOF) place Filler }
{
    let start = profile.image_start();
    at_even(
        place,
        within(place, start, start + averages(profile), Rule::Pixel),
    )
}

// The border bytes on either side of the image.
fn border(profile: Profile) -> usize
    ensures { result ≡ border profile }
{
    match profile {
        Profile::VV5404 => 0,
        Profile::VV5300 => 2,
    }
}

// How far into the image of an EOF line bin averages reach.
fn averages(profile: Profile) -> usize
    ensures { result ≡ averages_reach profile }
{
    match profile {
        Profile::VV5404 => 0,
        Profile::VV5300 => 8,
    }
}

// The rule within the image and a margin on either side of it.
fn image_at(profile: Profile, place: usize, margin: usize, rule: Rule) -> Rule
    requires { margin ≤ image_start profile }
    ensures { result ≡ image_within profile margin place rule }
{
    let start = profile.image_start();
    within(
        place,
        start - margin,
        start + profile.image_length() + margin,
        rule,
    )
}

// The rule, from one place up to another; elsewhere the filler.
fn within(place: usize, from: usize, to: usize, rule: Rule) -> Rule
    ensures { result ≡ rule_within place from to rule }
{
    if place < from {
        return Rule::Filler;
    }
    if place < to {
        return rule;
    }
    Rule::Filler
}

// The rule at even places; at odd ones the filler.
fn at_even(place: usize, rule: Rule) -> Rule
    ensures { result ≡ evenly place rule }
{
    if place % 2 == 1 {
        return Rule::Filler;
    }
    rule
}

// Whether both bytes are x.
fn both_are(x: u8, a: u8, b: u8) -> bool
    ensures { result ≡ both_are x a b }
{
    a == x && b == x
}

// Whether both bytes are pixels or means.
fn both_pixels(a: u8, b: u8) -> bool
    ensures { result ≡ both_pixels a b }
{
    profile::is_pixel(a) && profile::is_pixel(b)
}
