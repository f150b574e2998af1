// Line periods (paper 02, A7). Nibble counts and pixel periods are separate units; one period is two nibbles, and an odd count of nibbles is
// no whole period. Cost: constant.

#![tactic(auto)]

ghost use Rattle.std.specs.Prelude.{◌≡◌};
ghost use Rattle.period.specs.Period.{periods_in, whole_of, frames_in, rate_of};

// A count of nibbles, held at 65,535.
#[derive(Clone, Copy)]
pub struct Nibbles(pub u16);

// A count of pixel periods.
#[derive(Clone, Copy)]
pub struct Periods(pub u16);

// The frames a second that a line period is named after.
#[derive(Clone, Copy)]
pub enum Rate {
    Thirty,
    TwentyFive,
    Unnamed,
}

impl Nibbles {
    // The largest count: a larger one is held there.
    pub const MOST: u16 = 65535;

    // In whole periods: an odd count is none.
    pub fn whole(self) -> Option<Periods>
        ensures { periods_in result ≡ whole_of self }
    {
        let n = self.0;
        if n % 2 == 0 {
            let periods = Periods(n / 2);
            return Some(periods);
        }
        None
    }

    // Its name as a line period.
    pub fn rate(self) -> Rate
        ensures { frames_in result ≡ rate_of self }
    {
        let n = self.0;
        if n == 786 {
            return Rate::Thirty;
        }
        if n == 942 {
            return Rate::TwentyFive;
        }
        Rate::Unnamed
    }
}
