// What is awaited of a VV5300 reader's answers for a row of half-line means (paper 02, A10): a visible line, then its gap.
//
// In: what is awaited, and the answer of a call. Out: what is awaited then. Nothing is refused. Cost: constant.

#![tactic(auto)]

ghost use Rattle.std.specs.Prelude.{◌≡◌};
ghost use Rattle.mean_gap.specs.AwaitedGap.{after_line, awaits_after};

use line_code::Kind;
use stream::{Answer, LineFacts};

// The number of the visible line whose gap is awaited; where there is none, a visible line is awaited.
pub type Awaits = Option<u16>;

// What is awaited after an answer.
pub fn after(awaits: Awaits, answer: Answer) -> Awaits
    ensures { result ≡ awaits_after awaits answer }
{
    match answer {
        Answer::Nothing => awaits,
        Answer::Line(facts) => after_line(facts),
        Answer::Gap(_) => None,
        Answer::Refused(_) => None,
    }
}

fn after_line(facts: LineFacts) -> Awaits
    ensures { result ≡ after_line facts }
{
    let kind = facts.kind;
    match kind {
        Kind::BL => None,
        Kind::BK => None,
        Kind::VL => Some(facts.number),
        Kind::SOF => None,
        Kind::EOF => None,
    }
}
