// Periods of lines that no clean stream has: of an odd count of nibbles, and longer than any line that is written.
//
// In: the profile, and the period of each good gap, in nibbles (paper 02, A7); 0 is none. Out: the counts. Nothing is refused; a count stops at
// the greatest u64. Cost: constant.

#![tactic(auto)]

ghost use Rattle.std.specs.Prelude.{◌≡◌, cond};
ghost use Rattle.counts.specs.Counts.{one_more};
ghost use Rattle.period_faults.specs.PeriodFaults.{most_period, is_odd, is_long, no_faults, with_period};

use counts::one_more;
use period::Nibbles;
use profile::Profile;

// How many periods are odd, and how many are too long.
#[derive(Clone, Copy)]
pub struct PeriodFaults {
    pub odd: u64,
    pub long: u64,
}

impl PeriodFaults {
    // None.
    pub fn new() -> PeriodFaults
        ensures { result ≡ no_faults }
    {
        PeriodFaults { odd: 0, long: 0 }
    }

    // With the period of a gap: 0 is none.
    pub fn with(self, profile: Profile, period: Nibbles) -> PeriodFaults
        ensures { result ≡ with_period profile self period }
    {
        let odd = counted_if(is_odd(period), self.odd);
        let long = counted_if(is_long(profile, period), self.long);
        PeriodFaults { odd, long }
    }
}

fn counted_if(so: bool, count: u64) -> u64
    ensures { result ≡ cond so (one_more count) count }
{
    if so {
        return one_more(count);
    }
    count
}

// An odd count: a nibble was lost or added. The greatest that is told stands for every longer one, so it is not looked at.
fn is_odd(period: Nibbles) -> bool
    ensures { result ≡ is_odd period }
{
    if period.0 % 2 == 1 {
        return period.0 < u16::MAX;
    }
    false
}

fn is_long(profile: Profile, period: Nibbles) -> bool
    ensures { result ≡ is_long profile period }
{
    most_period(profile) < period.0
}

// The longest line that is written: both marks, number and body, gap bytes and the most nulls.
fn most_period(profile: Profile) -> u16
    ensures { result ≡ most_period profile }
{
    match profile {
        Profile::VV5404 => 1246,
        Profile::VV5300 => 870,
    }
}
