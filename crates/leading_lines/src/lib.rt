// The lines before the first frame of a capture: whether they lie one after another, as the last lines of a frame do.
//
// In: the profile, and the kind number and number of each line handed out before a frame opened. Out: for each layout the place that is due next, if
// the lines so far lie at places one after another, and a count of closing blank lines, whose numbers are free (paper 02, A3). Nothing is refused.
// Cost: constant.

#![tactic(auto)]

ghost use Rattle.std.specs.Prelude.{◌≡◌, cond, ◌+◌};
ghost use Rattle.leading_lines.specs.LeadingLines.{no_lines, first_place, next_place, most_closing, first_blanks, next_blanks, with_line, place_stands, is_run};

use frame_layout::Borders;
use line_code::Kind;
use profile::Profile;

// Whether a line came; the place due next with borders on and with borders off, 0 where the lines fit no place; and how many closing blank lines
// they may be, 0 where they are none.
#[derive(Clone, Copy)]
pub struct LeadingLines {
    pub seen: bool,
    pub on: u16,
    pub off: u16,
    pub blanks: u16,
}

impl LeadingLines {
    // No line yet.
    pub fn new() -> LeadingLines
        ensures { result ≡ no_lines }
    {
        LeadingLines {
            seen: false,
            on: 0,
            off: 0,
            blanks: 0,
        }
    }

    // With a line.
    pub fn with(self, profile: Profile, kind: u8, number: u16) -> LeadingLines
        ensures { result ≡ with_line profile self kind number }
    {
        if self.seen {
            return LeadingLines {
                seen: true,
                on: next_place(profile, Borders::On, self.on, kind, number),
                off: next_place(profile, Borders::Off, self.off, kind, number),
                blanks: next_blanks(profile, self.blanks, kind),
            };
        }
        LeadingLines {
            seen: true,
            on: first_place(profile, Borders::On, kind, number),
            off: first_place(profile, Borders::Off, kind, number),
            blanks: first_blanks(kind),
        }
    }

    // Whether they are a run of places; where a frame opened after them, up to a frame's last.
    #[tactic(auto, unfolding(crate::specs::LeadingLines::is_run))]
    pub fn is_run(self, profile: Profile, opened: bool) -> bool
        ensures { result ≡ is_run profile opened self }
    {
        !self.seen
            || 0 < self.blanks
            || place_stands(profile, opened, self.on)
            || place_stands(profile, opened, self.off)
    }
}

// The place due after a first line: its number tells its own, up to the EOF line's.
fn first_place(profile: Profile, borders: Borders, kind: u8, number: u16) -> u16
    ensures { result ≡ first_place profile borders kind number }
{
    if borders.end_place(profile) < number {
        return 0;
    }
    if borders.due_at(profile, number, kind, number) {
        return number + 1;
    }
    0
}

// The place due after a line more.
fn next_place(profile: Profile, borders: Borders, place: u16, kind: u8, number: u16) -> u16
    ensures { result ≡ next_place profile borders place kind number }
{
    if place == 0 {
        return 0;
    }
    if frame_layout::last_place(profile) < place {
        return 0;
    }
    if borders.due_at(profile, place, kind, number) {
        return place + 1;
    }
    0
}

fn first_blanks(kind: u8) -> u16
    ensures { result ≡ first_blanks kind }
{
    if kind == Kind::BL.number() {
        return 1;
    }
    0
}

fn next_blanks(profile: Profile, blanks: u16, kind: u8) -> u16
    ensures { result ≡ next_blanks profile blanks kind }
{
    if blanks == 0 {
        return 0;
    }
    if blanks < most_closing(profile) {
        if kind == Kind::BL.number() {
            return blanks + 1;
        }
    }
    0
}

// The most blank lines after an EOF line.
fn most_closing(profile: Profile) -> u16
    ensures { result ≡ most_closing profile }
{
    match profile {
        Profile::VV5404 => 3,
        Profile::VV5300 => 1,
    }
}

fn place_stands(profile: Profile, opened: bool, place: u16) -> bool
    ensures { result ≡ place_stands profile opened place }
{
    if opened {
        return frame_layout::last_place(profile) < place;
    }
    0 < place
}
