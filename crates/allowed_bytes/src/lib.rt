// Which bytes of a line its layout allows (paper 01, 'Line layout').
//
// In: a profile, a line's kind, a body of any length, and the two gap bytes after it. Out: whether one of them is not allowed, or the body's length is
// not the layout's. Nothing is refused. Cost: linear in the body.

#![tactic(auto)]

ghost use Rattle.std.specs.Prelude.{◌≡◌, ◌&&◌, not};
ghost use Rattle.profile.specs.Layout.{rules, fits, gap_fits};

use line_code::Kind;
use profile::Profile;

// Whether a body byte or a gap byte is not allowed.
pub fn has_bad_byte(profile: Profile, kind: Kind, body: &[u8], first: u8, second: u8) -> bool
    ensures { result ≡ not (fits (rules profile kind) body.now && gap_fits profile kind first second) }
{
    !(line_layout::body_fits(profile, kind, body)
        && line_layout::gap_fits(profile, kind, first, second))
}
