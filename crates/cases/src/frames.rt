// The judge of frames (paper 01, 'Frames of profile 0').
use frame_judge::{Judge, Ruling};
use frame_layout::Borders;
use profile::Profile;
use script_words::{end_line, say, say_number, say_refused};

// A judge, and how many lines it answered Going since its last other answer.
#[derive(Clone, Copy)]
pub struct Hearing {
    pub judge: Judge,
    pub going: u64,
}

impl Hearing {
    // A new judge.
    pub fn new() -> Hearing {
        let judge = Judge::new();
        Hearing { judge, going: 0 }
    }

    // Lines of one kind, numbered from one number to another; the first of them comes in any case.
    pub fn lines(self, rt: HostRuntime, kind: u8, from: u16, to: u16) -> Hearing {
        let mut hearing = self;
        for number in from..to {
            hearing = hearing.line(rt, kind, number);
        }
        hearing.line(rt, kind, from.max(to))
    }

    // A line.
    fn line(self, rt: HostRuntime, kind: u8, number: u16) -> Hearing {
        let judge = self.judge;
        let judged = judge.line(Profile::VV5404, kind, number);
        let judge = judged.judge;
        let ruling = judged.ruling;
        let going = ruled(rt, ruling, self.going);
        Hearing { judge, going }
    }

    // Writes how many lines were answered Going since the last other answer.
    pub fn end(self, rt: HostRuntime) -> Hearing {
        let judge = self.judge;
        say_going(rt, self.going);
        Hearing { judge, going: 0 }
    }
}

// How many lines were answered Going after one more ruling; any other is written.
fn ruled(rt: HostRuntime, ruling: Ruling, going: u64) -> u64 {
    if let Ruling::Going = ruling {
        return std::num::wrapping_add_u64(going, 1);
    }
    say_going(rt, going);
    match ruling {
        Ruling::Going => {}
        Ruling::Waiting => say(rt, b"Waiting"),
        Ruling::Complete => say(rt, b"Complete"),
        Ruling::Refused(refusal) => say_refused(rt, refusal),
    }
    end_line(rt);
    0
}

fn say_going(rt: HostRuntime, going: u64) {
    if going > 0 {
        say_number(rt, going);
        say(rt, b" Going\n");
    }
}

// A judge with this place due; borders are unsettled (0), on (1) or off.
pub fn in_state(place: u16, borders: u64) -> Hearing {
    let borders = borders_numbered(borders);
    let judge = Judge::Due(place, borders);
    Hearing { judge, going: 0 }
}

fn borders_numbered(n: u64) -> Option<Borders> {
    if n == 0 {
        return None;
    }
    if n == 1 {
        return Some(Borders::On);
    }
    Some(Borders::Off)
}
