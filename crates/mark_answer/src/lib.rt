// A mark's answer, from what is kept of its text (paper 01, 'One answer for each mark').
//
// In: an open mark with its text's length, what is kept of it, and the body; the next mark's code, or finish. Out: the mark's answer, 1 to 9, a good
// gap or a line: of an end mark by crate gap_answer, of a line by crate line_answer. Cost: constant, but that a body is scanned where its line is
// answered.

#![tactic(auto)]

ghost use Rattle.std.specs.Prelude.{◌≡◌, []};
ghost use Rattle.std.proofs.Math.Option.{none, some};
ghost use Rattle.line_code.specs.declared.Repair.{Repair};
ghost use Rattle.stream.specs.Answers.{answer_for};
ghost use Rattle.mark_answer.specs.KeptAnswer.{kept_by_meaning, kept_by_reading, kept_answer};
ghost use Rattle.mark_answer.specs.Gives.{MarkGives};

use line_code::{Meaning, Reading, Repair};
use mark_text::Kept;
use period::Nibbles;
use profile::Profile;
use refusal::Refusal;
use stream::{Answer, Before, Mark};

// An open mark that the next one closes: its answer, and what it is to that one.
#[derive(Clone, Copy)]
pub struct Closed {
    pub answer: Answer,
    pub before: Before,
}

// The open mark's answer when the next mark's code is complete, and what it is to that one. Its text has this many nibbles, the code's two
// among them. The code is looked up once.
pub fn at_mark(
    profile: Profile,
    mark: Mark,
    length: u32,
    kept: Kept,
    body: &[u8],
    next: u8,
) -> Closed
    ensures { MarkGives mark (kept_answer profile mark length kept body.now (some next)) result }
{
    match mark {
        Mark::NoMark => {
            let answer = Answer::Nothing;
            let before = Before::NoLine;
            Closed { answer, before }
        }
        Mark::Open(earlier, code) => {
            let reading = line_code::read(code);
            let answer = reading_answer(profile, earlier, reading, length, kept, body, next);
            let kind = reading.kind();
            let handed = answer.is_line();
            let before = Before::of(kind, handed);
            Closed { answer, before }
        }
    }
}

// The open mark's answer at finish.
pub fn at_finish(profile: Profile, mark: Mark, length: u32, kept: Kept) -> Answer
    ensures { result ≡ answer_for (kept_answer profile mark length kept [] none) }
{
    match mark {
        Mark::NoMark => Answer::Nothing,
        Mark::Open(before, code) => {
            let reading = line_code::read(code);
            match reading {
                Reading::Says(m, _) => last_answer(profile, before, m, length, kept),
                Reading::Damaged => Answer::Refused(Refusal::DAMAGED_CODE),
            }
        }
    }
}

// 1, or by what the code says.
fn reading_answer(
    profile: Profile,
    before: Before,
    reading: Reading,
    length: u32,
    kept: Kept,
    body: &[u8],
    next: u8,
) -> Answer
    ensures { result ≡ answer_for (kept_by_reading profile before reading length kept body.now (some next)) }
{
    match reading {
        Reading::Says(m, repair) => meaning_answer(
            profile, before, m, repair, length, kept, body, next,
        ),
        Reading::Damaged => Answer::Refused(Refusal::DAMAGED_CODE),
    }
}

fn meaning_answer(
    profile: Profile,
    before: Before,
    m: Meaning,
    start: Repair,
    length: u32,
    kept: Kept,
    body: &[u8],
    next: u8,
) -> Answer
    ensures { result ≡ answer_for (kept_by_meaning profile before m start length kept body.now (some next)) }
{
    match m {
        Meaning::EndOfLine => {
            let period = gap_answer::line_period(profile, before, length);
            gap_answer::end_answer(profile, before, period, length, kept)
        }
        Meaning::Line(kind) => line_answer::line_answer(
            profile, kind, start, length, kept, body, next,
        ),
        Meaning::ReservedEC => Answer::Refused(Refusal::RESERVED_CODE),
        Meaning::ReservedF1 => Answer::Refused(Refusal::RESERVED_CODE),
    }
}

fn last_answer(profile: Profile, before: Before, m: Meaning, length: u32, kept: Kept) -> Answer
    ensures { (start : Repair) → result ≡ answer_for (kept_by_meaning profile before m start length kept [] none) }
{
    match m {
        Meaning::EndOfLine => {
            let period = Nibbles(0);
            gap_answer::end_answer(profile, before, period, length, kept)
        }
        Meaning::Line(_) => Answer::Refused(Refusal::UNFINISHED_LINE),
        Meaning::ReservedEC => Answer::Refused(Refusal::RESERVED_CODE),
        Meaning::ReservedF1 => Answer::Refused(Refusal::RESERVED_CODE),
    }
}
