// The answer of a line's mark, from what is kept of its text (paper 01, 'One answer for each mark').
//
// In: the profile, the line's kind and its start code's repair, the text's length, what is kept of it, the body, and the next mark's code. Out: 4 to 7,
// or the line. Cost: constant, but that the body is scanned where length and number are right.

#![tactic(auto)]

ghost use Rattle.std.specs.Prelude.{◌≡◌};
ghost use Rattle.line_code.specs.LineCode.{reading_of};
ghost use Rattle.stream.specs.Answers.{answer_for};
ghost use Rattle.line_answer.specs.KeptLine.{kept_body, kept_line};

use line_code::{Kind, Repair};
use mark_text::{BODY_PLACE, Kept};
use profile::Profile;
use refusal::Refusal;
use stream::{Answer, LineFacts};

// The answer of a line's mark when the next mark's code is complete: 4, 5, or by the body.
pub fn line_answer(
    profile: Profile,
    kind: Kind,
    start: Repair,
    length: u32,
    kept: Kept,
    body: &[u8],
    next: u8,
) -> Answer
    ensures { result ≡ answer_for (kept_line profile kind start length kept body.now (reading_of next)) }
{
    let wanted = 2 * profile.body_length() + BODY_PLACE as usize;
    if length as usize == wanted {
        let d = line_number::decode(kept.first, kept.second);
        return match d {
            Some(number) => body_answer(profile, kind, start, number, body, next),
            None => Answer::Refused(Refusal::BAD_NUMBER),
        };
    }
    Answer::Refused(Refusal::WRONG_LENGTH)
}

// 6, 7, or the line.
fn body_answer(
    profile: Profile,
    kind: Kind,
    start: Repair,
    number: u16,
    body: &[u8],
    next: u8,
) -> Answer
    ensures { result ≡ answer_for (kept_body profile kind start number body.now (reading_of next)) }
{
    let n = profile.body_length();
    if body.len() < n {
        return Answer::Refused(Refusal::BAD_BODY);
    }
    if line_layout::body_fits(profile, kind, &body[..n]) {
        let reading = line_code::read(next);
        if reading.is_end() {
            let end = reading.repair();
            let facts = LineFacts {
                kind,
                number,
                start,
                end,
            };
            return Answer::Line(facts);
        }
        return Answer::Refused(Refusal::NO_END_OF_LINE);
    }
    Answer::Refused(Refusal::BAD_BODY)
}
