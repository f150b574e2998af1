// The periods of lines, counted: how many are named 30 and 25 frames a second, how many have another length (paper 02, A7).
//
// In: the period of each gap, in nibbles; 0 is none. Out: the counts, and the least and the greatest of the other lengths. Nothing is refused; a
// count stops at the greatest u64. Cost: constant.

#![tactic(auto)]

ghost use Rattle.std.specs.Prelude.{◌≡◌};
ghost use Rattle.spacing.specs.Spacing.{lesser, greater, no_periods, thirty_more, twenty_five_more, other_more, with_period};

use counts::one_more;
use period::{Nibbles, Rate};

// The periods of lines handed out (paper 02, A7): how many are named 30 and 25 frames a second, how many have another length, and the least and
// the greatest of those, in nibbles; 0 where there are none.
#[derive(Clone, Copy)]
pub struct Spacing {
    pub thirty: u64,
    pub twentyfive: u64,
    pub others: u64,
    pub least: u16,
    pub greatest: u16,
}

impl Spacing {
    // No periods.
    pub fn new() -> Spacing
        ensures { result ≡ no_periods }
    {
        Spacing {
            thirty: 0,
            twentyfive: 0,
            others: 0,
            least: 0,
            greatest: 0,
        }
    }

    // With the period of a gap: 0 is none.
    pub fn with(self, period: Nibbles) -> Spacing
        ensures { result ≡ with_period self period }
    {
        if period.0 == 0 {
            return self;
        }
        let rate = period.rate();
        match rate {
            Rate::Thirty => self.thirty_more(),
            Rate::TwentyFive => self.twenty_five_more(),
            Rate::Unnamed => self.other(period.0),
        }
    }

    fn thirty_more(self) -> Spacing
        ensures { result ≡ thirty_more self }
    {
        Spacing {
            thirty: one_more(self.thirty),
            ..self
        }
    }

    fn twenty_five_more(self) -> Spacing
        ensures { result ≡ twenty_five_more self }
    {
        Spacing {
            twentyfive: one_more(self.twentyfive),
            ..self
        }
    }

    // A period of another length.
    fn other(self, nibbles: u16) -> Spacing
        ensures { result ≡ other_more self nibbles }
    {
        Spacing {
            others: one_more(self.others),
            least: lesser(self.least, nibbles),
            greatest: greater(self.greatest, nibbles),
            ..self
        }
    }
}

// The least so far, 0 for none, with one more.
fn lesser(least: u16, n: u16) -> u16
    ensures { result ≡ lesser least n }
{
    if least == 0 {
        return n;
    }
    if n < least {
        return n;
    }
    least
}

fn greater(greatest: u16, n: u16) -> u16
    ensures { result ≡ greater greatest n }
{
    if greatest < n {
        return n;
    }
    greatest
}
