// The judge of frames: those of profile 0 (paper 01, 'Frames of profile 0') and of the VV5300 (paper 000, 'Frame Level Formatting').
//
// In: the profile; the kind number and number of each line given out, or kind 0 for a broken line (answers 1 to 7), in order. Out: beside
// the next judge, Waiting, Going, Complete or a refusal: 18 the line is not the one due, 19 a broken line; and, changing nothing: 11 a
// judge state that no calls can reach with this profile, 13 a kind above 5, 14 a number above 4095. After the EOF line a line's number is
// not compared (paper 02, A3). Cost: constant.

#![tactic(auto)]

ghost use Rattle.std.specs.Prelude.{◌≡◌};
ghost use Rattle.frame_judge.specs.Frame.{within, passes, line_due, settled_by, refuses, opens, broken, due_taken, astray, first, whole, judge_of, JudgedAs, breaks_frame};

use frame_layout::{Borders, FIRST_BLACK};
use line_code::Kind;
use profile::Profile;
use refusal::Refusal;

// Waiting for a frame; or within one, with the place that is due and what is known so far of the borders: the line at the place of the first
// visible line with borders on settles them. No option of a pair: definitions and laws go by both parts, and their patterns can't take a pair apart.
#[derive(Clone, Copy)]
pub enum Judge {
    Waiting,
    Due(u16, Option<Borders>),
}

// What the judge answers: one enum, and no result of an option, since the paper has the four side by side.
#[derive(Clone, Copy)]
pub enum Ruling {
    Waiting,
    Going,
    Complete,
    Refused(Refusal),
}

// A judge after a call, and its answer.
#[derive(Clone, Copy)]
pub struct Judged {
    pub judge: Judge,
    pub ruling: Ruling,
}

impl Judge {
    // The kind number of a broken line.
    pub const BROKEN: u8 = 0;

    // A fresh judge waits.
    pub fn new() -> Judge
        ensures { result ≡ Judge.Waiting }
    {
        let fresh = Judge::Waiting;
        fresh
    }

    // Takes a line, or kind 0 for a broken one. Refused, in this order: 11, 13, 14; then 19, 18.
    pub fn line(self, profile: Profile, kind: u8, number: u16) -> Judged
        ensures { JudgedAs (judge_of profile self kind number) result }
    {
        if self.passes(profile) {
            if kind > Kind::EOF.number() {
                return refused(self, Refusal::BAD_KIND);
            }
            if kind == Judge::BROKEN {
                return self.broken();
            }
            if number > line_number::GREATEST {
                return refused(self, Refusal::NUMBER_TOO_LARGE);
            }
            return self.whole(profile, kind, number);
        }
        refused(self, Refusal::BAD_STATE)
    }

    // The judge's own test: true of the states that calls reach from a fresh judge, and of no other.
    fn passes(self, profile: Profile) -> bool
        ensures { result ≡ passes profile self }
    {
        match self {
            Judge::Waiting => true,
            Judge::Due(place, borders) => {
                let settling = frame_layout::settling_place(profile);
                let last = frame_layout::last_place(profile);
                match borders {
                    None => within(FIRST_BLACK, settling, place),
                    Some(_) => within(settling + 1, last, place),
                }
            }
        }
    }

    fn broken(self) -> Judged
        ensures { result ≡ broken self }
    {
        match self {
            Judge::Waiting => Judged {
                judge: self,
                ruling: Ruling::Waiting,
            },
            Judge::Due(_, _) => refused(Judge::Waiting, Refusal::BROKEN_LINE),
        }
    }

    fn whole(self, profile: Profile, kind: u8, number: u16) -> Judged
        ensures { result ≡ whole profile self kind number }
    {
        match self {
            Judge::Waiting => first(kind, number),
            Judge::Due(place, borders) => {
                if line_due(borders, profile, place, kind, number) {
                    return take_due(profile, place, borders, kind);
                }
                astray(kind, number)
            }
        }
    }
}

// Whether this is the line due at a place.
fn line_due(known: Option<Borders>, profile: Profile, place: u16, kind: u8, number: u16) -> bool
    ensures { result ≡ line_due profile known place kind number }
{
    match known {
        None => {
            Borders::On.due_at(profile, place, kind, number)
                || Borders::Off.due_at(profile, place, kind, number)
        }
        Some(borders) => borders.due_at(profile, place, kind, number),
    }
}

// The borders after a line that was due.
fn settled_by(known: Option<Borders>, profile: Profile, place: u16, kind: u8) -> Option<Borders>
    ensures { result ≡ settled_by profile known place kind }
{
    match known {
        None => {
            if place < frame_layout::settling_place(profile) {
                return None;
            }
            if kind == Kind::VL.number() {
                return Some(Borders::On);
            }
            Some(Borders::Off)
        }
        Some(_) => known,
    }
}

// Whether a refusal of the judge, 18 or 19, breaks the frame.
pub fn breaks_frame(refusal: Refusal) -> bool
    ensures { result ≡ breaks_frame refusal.0 }
{
    refusal == Refusal::NOT_THE_LINE_DUE || refusal == Refusal::BROKEN_LINE
}

// The place of a frame's first line.
const FIRST_PLACE: u16 = 0;

// A line that is due.
fn take_due(profile: Profile, place: u16, borders: Option<Borders>, kind: u8) -> Judged
    ensures { result ≡ due_taken profile place borders kind }
{
    if place < frame_layout::last_place(profile) {
        let next = settled_by(borders, profile, place, kind);
        return Judged {
            judge: Judge::Due(place + 1, next),
            ruling: Ruling::Going,
        };
    }
    Judged {
        judge: Judge::Waiting,
        ruling: Ruling::Complete,
    }
}

// Whether a line opens a frame: an SOF numbered 0.
fn opens(kind: u8, number: u16) -> bool
    ensures { result ≡ opens kind number }
{
    kind == Kind::SOF.number() && number == FIRST_PLACE
}

// A line while waiting.
fn first(kind: u8, number: u16) -> Judged
    ensures { result ≡ first kind number }
{
    if opens(kind, number) {
        return Judged {
            judge: Judge::Due(FIRST_BLACK, None),
            ruling: Ruling::Going,
        };
    }
    Judged {
        judge: Judge::Waiting,
        ruling: Ruling::Waiting,
    }
}

// A line that is not due.
fn astray(kind: u8, number: u16) -> Judged
    ensures { result ≡ astray kind number }
{
    if opens(kind, number) {
        return refused(Judge::Due(FIRST_BLACK, None), Refusal::NOT_THE_LINE_DUE);
    }
    refused(Judge::Waiting, Refusal::NOT_THE_LINE_DUE)
}

fn refused(judge: Judge, refusal: Refusal) -> Judged
    ensures { result ≡ refuses judge refusal.0 }
{
    Judged {
        judge,
        ruling: Ruling::Refused(refusal),
    }
}

fn within(from: u16, to: u16, n: u16) -> bool
    ensures { result ≡ within from to n }
{
    from <= n && n <= to
}
