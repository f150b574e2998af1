// The meaning of a stream (paper 01, 'Marks and line codes' and 'One answer for each mark'): the types that reader and callers share.
// The meaning itself is in specs/: Answers.antt, what a mark is answered; Stream.antt, where marks are and what each nibble brings.

#![tactic(auto)]

ghost use Rattle.std.specs.Prelude.{◌≡◌};
ghost use Rattle.stream.specs.Answers.{either_repaired, is_line_answer, is_answer};
ghost use Rattle.stream.specs.Stream.{before_by};

use line_code::{Kind, Repair};
use period::Nibbles;
use refusal::Refusal;

// What the mark before an open mark was: absent or not of a line kind; of a line kind, and refused; handed out as a line.
#[derive(Clone, Copy)]
pub enum Before {
    NoLine,
    RefusedLine(Kind),
    HandedOut(Kind),
}

// The open mark, which waits for its answer: what the mark before it was, and its own code byte. No option of a pair: definitions and laws go by both
// parts, and their patterns can't take a pair apart.
#[derive(Clone, Copy)]
pub enum Mark {
    NoMark,
    Open(Before, u8),
}

// What is said of a line. Its body is in the lent buffer.
#[derive(Clone, Copy)]
pub struct LineFacts {
    pub kind: Kind,
    pub number: u16,
    // What was repaired of the code that starts it, and of the code that ends it.
    pub start: Repair,
    pub end: Repair,
}

// What is said of a good gap: its two bytes (profile 0: FF FF); and the period of its line, from the line's first mark nibble to the first
// nibble of the mark after the gap, held at 65,535. It is 0 where the line was not handed out, and where finish closed the gap.
#[derive(Clone, Copy)]
pub struct GapFacts {
    pub first: u8,
    pub second: u8,
    pub period: Nibbles,
}

// The answer of a call: no mark's answer is due yet; a line; a good gap; a refusal. One enum, and no result of an option of either: the paper's table
// has the four side by side.
#[derive(Clone, Copy)]
pub enum Answer {
    Nothing,
    Line(LineFacts),
    Gap(GapFacts),
    Refused(Refusal),
}

impl LineFacts {
    // Whether either code was repaired.
    pub fn is_repaired(self) -> bool
        ensures { result ≡ either_repaired self }
    {
        self.start.is_bit() || self.end.is_bit()
    }
}

impl Answer {
    // Whether it is one: not where none is due yet.
    pub fn is_answer(self) -> bool
        ensures { result ≡ is_answer self }
    {
        !matches!(self, Answer::Nothing)
    }

    // Whether a line is handed out.
    pub fn is_line(self) -> bool
        ensures { result ≡ is_line_answer self }
    {
        matches!(self, Answer::Line(_))
    }
}

impl Before {
    // What a mark is to the next one: by the line kind of its own code, and whether it was handed out as a line.
    pub fn of(kind: Option<Kind>, handed: bool) -> Before
        ensures { result ≡ before_by kind handed }
    {
        match kind {
            None => Before::NoLine,
            Some(k) if handed => Before::HandedOut(k),
            Some(k) => Before::RefusedLine(k),
        }
    }
}
