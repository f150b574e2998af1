// What the exported calls take and answer, as numbers: answers of a reader, judges of frames, and their rulings.
//
// In: an answer, a judge or a ruling. Out: its number, as specs/CallNumbers.antt has it; and back, the judge that a number stands for. Nothing is
// refused. Cost: constant.

#![tactic(auto)]

ghost use Rattle.std.specs.Prelude.{◌≡◌};
ghost use Rattle.exported_numbers.specs.CallNumbers.{answer_number, judge_number, judge_numbered, ruling_number};

use exported_call::bit;
use frame_judge::{Judge, Ruling};
use frame_layout::Borders;
use stream::Answer;

// An answer as a number.
pub fn answer_number(answer: Answer) -> u64
    ensures { result ≡ answer_number answer }
{
    match answer {
        Answer::Nothing => 0,
        Answer::Line(f) => {
            let kind = f.kind;
            let start = f.start;
            let end = f.end;
            END * end.number() as u64
                + START * start.number() as u64
                + LINE
                + REPAIRED * bit(f.is_repaired()) as u64
                + KIND * kind.number() as u64
                + f.number as u64
        }
        Answer::Gap(g) => {
            let period = g.period;
            PERIOD * period.0 as u64 + GAP + 256 * g.first as u64 + g.second as u64
        }
        Answer::Refused(refusal) => refusal.0 as u64,
    }
}

const LINE: u64 = 0x100_0000;

const GAP: u64 = 0x200_0000;

const KIND: u64 = 0x1_0000;

const REPAIRED: u64 = 0x8_0000;

const START: u64 = 0x1_0000_0000;

const END: u64 = 0x1_0000_0000_0000;

const PERIOD: u64 = 0x1_0000_0000;

// How many places a judge's number has room for, by each setting of the borders.
const PLACES: u32 = 0x1_0000;

// Below this each number is a judge's.
pub const JUDGES: u32 = 3 * PLACES;

// The judge that a number stands for.
#[tactic(auto, unfolding(crate::specs::CallNumbers::judge_numbered))]
pub fn judge_numbered(n: u32) -> Judge
    ensures { result ≡ judge_numbered n }
{
    if n == 0 {
        return Judge::Waiting;
    }
    let place = (n % PLACES) as u16;
    if n < PLACES {
        return Judge::Due(place, None);
    }
    if n < 2 * PLACES {
        return Judge::Due(place, Some(Borders::On));
    }
    Judge::Due(place, Some(Borders::Off))
}

// A judge as a number.
pub fn judge_number(judge: Judge) -> u32
    ensures { result ≡ judge_number judge }
{
    match judge {
        Judge::Waiting => 0,
        Judge::Due(place, borders) => match borders {
            None => place as u32,
            Some(borders) => match borders {
                Borders::On => PLACES + place as u32,
                Borders::Off => 2 * PLACES + place as u32,
            },
        },
    }
}

// A judge's ruling as a number.
pub fn ruling_number(ruling: Ruling) -> u8
    ensures { result ≡ ruling_number ruling }
{
    match ruling {
        Ruling::Waiting => 0,
        Ruling::Going => 1,
        Ruling::Complete => 2,
        Ruling::Refused(refusal) => refusal.0,
    }
}
