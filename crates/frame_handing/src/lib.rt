// What of a capture's answers is handed to the judge of frames (paper 01, 'Frames of profile 0').
//
// In: an answer. Out: nothing, or a kind number and a number for `Judge::line`. A capture is judged by handing over what `handed_over` has of each
// answer. Nothing is refused. Cost: constant.

#![tactic(auto)]

ghost use Rattle.std.specs.Prelude.{◌≡◌};
ghost use Rattle.frame_handing.specs.Handing.{is_broken_line, handed_over};

use frame_judge::Judge;
use refusal::Refusal;
use stream::Answer;

// A line as it is handed to the judge: a kind number, 0 for a broken line, and a number.
#[derive(Clone, Copy)]
pub struct HandedLine {
    pub kind: u8,
    pub number: u16,
}

// Each line given out is handed over, and kind 0 for each answer 1 to 7.
pub fn handed_over(answer: Answer) -> Option<HandedLine>
    ensures { result ≡ handed_over answer }
{
    match answer {
        Answer::Nothing => None,
        Answer::Line(facts) => {
            let kind = facts.kind;
            Some(HandedLine {
                kind: kind.number(),
                number: facts.number,
            })
        }
        Answer::Gap(_) => None,
        Answer::Refused(refusal) => {
            if is_broken_line(refusal) {
                return Some(HandedLine {
                    kind: Judge::BROKEN,
                    number: 0,
                });
            }
            None
        }
    }
}

// Whether an answer's refusal, 1 to 7, is that of a broken line.
#[tactic(auto, unfolding(crate::specs::Handing::is_broken_line))]
fn is_broken_line(refusal: Refusal) -> bool
    ensures { result ≡ is_broken_line refusal.0 }
{
    Refusal::DAMAGED_CODE.0 <= refusal.0 && refusal.0 <= Refusal::NO_END_OF_LINE.0
}
