// What is found in a capture: the tally of its frames, its signal, the lines outside frames, and the frames that its end cut off.
//
// In: the answer of each call to the reader, in order; at the end, finish's. Out: the next findings, and beside them the tally's news of a frame. Nothing
// is refused. Cost: constant.

#![tactic(auto)]

ghost use Rattle.std.specs.Prelude.{◌≡◌};
ghost use Rattle.findings.specs.Findings.{no_findings, is_outside, with_line, take_of, with_cut, close_of};

use counts::one_more;
use frame_judge::Judge;
use frame_tally::{News, Tally};
use profile::Profile;
use signal_tally::Signal;
use stream::Answer;

// The lines outside frames: before the first frame, and later.
#[derive(Clone, Copy)]
pub struct Outside {
    pub early: u64,
    pub later: u64,
}

// The tally of a capture's frames, the signal, the lines outside frames, and the frames that its end cut off.
#[derive(Clone, Copy)]
pub struct Findings {
    pub tally: Tally,
    pub signal: Signal,
    pub outside: Outside,
    pub cut: u64,
}

// Findings after an answer, and the tally's news.
#[derive(Clone, Copy)]
pub struct Found {
    pub findings: Findings,
    pub news: News,
}

impl Findings {
    // Nothing found yet, of a capture of this profile.
    pub fn new(profile: Profile) -> Findings
        ensures { result ≡ no_findings profile }
    {
        let tally = Tally::new(profile);
        let signal = Signal::new();
        let outside = Outside { early: 0, later: 0 };
        Findings {
            tally,
            signal,
            outside,
            cut: 0,
        }
    }

    // Takes the answer of a call.
    pub fn take(self, answer: Answer) -> Found
        ensures { result ≡ take_of self answer }
    {
        let earlier = self.tally;
        let told = earlier.take(answer);
        let tally = told.tally;
        let news = told.news;
        let signal = self.signal;
        let signal = signal.take(answer);
        let outside = self.outside;
        let outside = outside.with(earlier, tally, answer);
        let findings = Findings {
            tally,
            signal,
            outside,
            cut: self.cut,
        };
        Found { findings, news }
    }

    // Takes finish's answer, at the end of the capture.
    pub fn close(self, last: Answer) -> Found
        ensures { result ≡ close_of self last }
    {
        let earlier = self.tally;
        let told = earlier.close(last);
        let tally = told.tally;
        let news = told.news;
        let signal = self.signal;
        let signal = signal.close(last);
        let outside = self.outside;
        let cut = with_cut(self.cut, news);
        let findings = Findings {
            tally,
            signal,
            outside,
            cut,
        };
        Found { findings, news }
    }
}

impl Outside {
    // With an answer, by the tally before and after it: a line that finds the judge waiting and leaves it so.
    fn with(self, before: Tally, after: Tally, answer: Answer) -> Outside
        ensures { result ≡ with_line self before after answer }
    {
        if is_outside(before, after, answer) {
            if before.frames == 0 {
                return Outside {
                    early: one_more(self.early),
                    later: self.later,
                };
            }
            return Outside {
                early: self.early,
                later: one_more(self.later),
            };
        }
        self
    }
}

fn is_outside(before: Tally, after: Tally, answer: Answer) -> bool
    ensures { result ≡ is_outside before.judge after.judge answer }
{
    let first = before.judge;
    let next = after.judge;
    match first {
        Judge::Waiting => match next {
            Judge::Waiting => answer.is_line(),
            Judge::Due(_, _) => false,
        },
        Judge::Due(_, _) => false,
    }
}

// The frames that were cut off, with the news of the capture's end.
fn with_cut(cut: u64, news: News) -> u64
    ensures { result ≡ with_cut cut news }
{
    match news {
        News::Nothing => cut,
        News::Complete(_, _, _) => cut,
        News::Broken(_, _, _, _) => cut,
        News::Cut(_) => one_more(cut),
    }
}
