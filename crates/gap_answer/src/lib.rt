// The answer of an end mark, and the period of the line before it, from what is kept of the end mark's text (paper 01, 'One answer for each
// mark'; 02, A7).
//
// In: the profile, what the mark before was, the text's length, and what is kept of it. Out: 8, 9 or the good gap. Cost: constant.

#![tactic(auto)]

ghost use Rattle.std.specs.Prelude.{◌≡◌, ℕ, ◌+◌, min};
ghost use Rattle.std.proofs.Math.Option.{some};
ghost use Rattle.period.specs.Period.{most_nibbles};
ghost use Rattle.stream.specs.Answers.{answer_for, group_nibbles, line_nibbles, period_of};
ghost use Rattle.gap_answer.specs.KeptGap.{kept_gap, kept_end};

use line_code::Kind;
use mark_text::{BODY_PLACE, Kept};
use period::Nibbles;
use profile::Profile;
use refusal::Refusal;
use stream::{Answer, Before, GapFacts};

// The answer of an end mark, of a gap with this period: 8, or the gap's answer.
pub fn end_answer(
    profile: Profile,
    before: Before,
    period: Nibbles,
    length: u32,
    kept: Kept,
) -> Answer
    ensures { result ≡ answer_for (kept_end profile before period.0 length kept) }
{
    match before {
        Before::NoLine => Answer::Refused(Refusal::END_WITHOUT_LINE),
        Before::RefusedLine(kind) => gap_answer(profile, kind, period, length, kept),
        Before::HandedOut(kind) => gap_answer(profile, kind, period, length, kept),
    }
}

// The period of the line before an end mark whose gap a mark closes: 0 where the line was not handed out.
pub fn line_period(profile: Profile, before: Before, length: u32) -> Nibbles
    ensures { (next : ℕ) → result.0 ≡ period_of profile before length (some next) }
{
    match before {
        Before::NoLine => Nibbles(0),
        Before::RefusedLine(_) => Nibbles(0),
        Before::HandedOut(_) => handed_period(profile, length),
    }
}

// The nibbles of a line's period around its body and before the end mark's text: F F F F 0 0, code and number of the line, and F F F F 0 0 of the
// end mark.
const AROUND_BODY: usize = 18;

// Where it was: F F F F 0 0 and text of the line, F F F F 0 0 and text of the end mark.
fn handed_period(profile: Profile, length: u32) -> Nibbles
    ensures { result.0 ≡ min most_nibbles (group_nibbles + line_nibbles profile + group_nibbles + length) }
{
    let line = 2 * profile.body_length() + AROUND_BODY;
    let most = Nibbles::MOST as usize;
    if most - line < length as usize {
        return Nibbles(Nibbles::MOST);
    }
    Nibbles((line + length as usize) as u16)
}

// 9, or the good gap.
fn gap_answer(profile: Profile, kind: Kind, period: Nibbles, length: u32, kept: Kept) -> Answer
    ensures { result ≡ answer_for (kept_gap profile kind period.0 length kept) }
{
    if kept.stray {
        return Answer::Refused(Refusal::BAD_GAP);
    }
    match profile {
        Profile::VV5404 => {
            let facts = GapFacts {
                first: Profile::NULL,
                second: Profile::NULL,
                period,
            };
            Answer::Gap(facts)
        }
        Profile::VV5300 => {
            if length < BODY_PLACE {
                return Answer::Refused(Refusal::BAD_GAP);
            }
            let first = kept.first;
            let second = kept.second;
            if line_layout::gap_fits(profile, kind, first, second) {
                let facts = GapFacts {
                    first,
                    second,
                    period,
                };
                return Answer::Gap(facts);
            }
            Answer::Refused(Refusal::BAD_GAP)
        }
    }
}
