// The frames of a capture (paper 01, 'Frames of profile 0'): how many are complete, how many are broken, and why.
//
// In: the answer of each call to the reader, in order; at the end, finish's. Out: beside the next tally, news of a frame that is complete,
// broken, or cut off by the capture's end. What frame_handing::handed_over has of an answer is handed to the judge. Nothing is refused; where the
// judge refuses 11, 13 or 14, which leave it as it was, the mark is counted. Cost: constant.

#![tactic(auto)]

ghost use Rattle.std.specs.Prelude.{◌≡◌};
ghost use Rattle.frame_tally.specs.Tally.{fresh_tally, quiet, marked, marked_by, own_answer, borders_of, opening, moved, completed, broken_by, refused_by, handed, take_of, is_unfinished, cut_of, close_of};

use counts::one_more;
use frame_judge::{Judge, Ruling};
use frame_layout::Borders;
use profile::Profile;
use refusal::Refusal;
use stream::Answer;

// The profile; the judge; the marks answered; the frames that opened, that were complete, and that broke. A count stops at the greatest u64.
#[derive(Clone, Copy)]
pub struct Tally {
    pub profile: Profile,
    pub judge: Judge,
    pub marks: u64,
    pub frames: u64,
    pub complete: u64,
    pub broken: u64,
}

// What is told of a frame. Frames and marks are counted from 1.
#[derive(Clone, Copy)]
pub enum News {
    Nothing,
    // A frame, its borders, and the mark of its last line.
    Complete(u64, Option<Borders>, u64),
    // A frame; the mark that broke it; 18 or 19; and that mark's own refusal, which only 19 has.
    Broken(u64, u64, Refusal, Option<Refusal>),
    // A frame that the capture's end cuts off.
    Cut(u64),
}

// A tally after an answer, and its news.
#[derive(Clone, Copy)]
pub struct Told {
    pub tally: Tally,
    pub news: News,
}

impl Tally {
    // A fresh judge, and nothing counted.
    pub fn new(profile: Profile) -> Tally
        ensures { result ≡ fresh_tally profile }
    {
        let judge = Judge::new();
        Tally {
            profile,
            judge,
            marks: 0,
            frames: 0,
            complete: 0,
            broken: 0,
        }
    }

    // Takes the answer of a call.
    pub fn take(self, answer: Answer) -> Told
        ensures { result ≡ take_of self answer }
    {
        let tally = self.marked_by(answer);
        match frame_handing::handed_over(answer) {
            None => quiet(tally),
            Some(line) => tally.hand(line.kind, line.number, own_answer(answer)),
        }
    }

    // Takes finish's answer, at the end of the capture. A frame that is still open is cut off, also within a line (3): it doesn't count as
    // broken.
    pub fn close(self, last: Answer) -> Told
        ensures { result ≡ close_of self last }
    {
        if is_unfinished(last) {
            return self.marked().cut();
        }
        let told = self.take(last);
        let news = told.news;
        match news {
            News::Nothing => {
                let tally = told.tally;
                tally.cut()
            }
            News::Complete(_, _, _) => told,
            News::Broken(_, _, _, _) => told,
            News::Cut(_) => told,
        }
    }

    // One mark more.
    fn marked(self) -> Tally
        ensures { result ≡ marked self }
    {
        let profile = self.profile;
        let judge = self.judge;
        let marks = one_more(self.marks);
        Tally {
            profile,
            judge,
            marks,
            frames: self.frames,
            complete: self.complete,
            broken: self.broken,
        }
    }

    // Every answer but Nothing is a mark's.
    fn marked_by(self, answer: Answer) -> Tally
        ensures { result ≡ marked_by self answer }
    {
        match answer {
            Answer::Nothing => self,
            Answer::Line(_) => self.marked(),
            Answer::Gap(_) => self.marked(),
            Answer::Refused(_) => self.marked(),
        }
    }

    // Hands the judge a line, or kind 0 for the mark's own answer.
    fn hand(self, kind: u8, number: u16, own: Option<Refusal>) -> Told
        ensures { result ≡ handed self kind number own }
    {
        let profile = self.profile;
        let before = self.judge;
        let judged = before.line(profile, kind, number);
        let judge = judged.judge;
        let ruling = judged.ruling;
        match ruling {
            Ruling::Waiting => quiet(self.moved(before, judge)),
            Ruling::Going => quiet(self.moved(before, judge)),
            Ruling::Complete => self.completed(judge),
            Ruling::Refused(refusal) => self.refused(judge, refusal, own),
        }
    }

    // The judge afterwards; a frame that opens is counted.
    fn moved(self, before: Judge, judge: Judge) -> Tally
        ensures { result ≡ moved self before judge }
    {
        let profile = self.profile;
        let frames = opening(before, judge, self.frames);
        Tally {
            profile,
            judge,
            marks: self.marks,
            frames,
            complete: self.complete,
            broken: self.broken,
        }
    }

    // The frame is complete.
    fn completed(self, judge: Judge) -> Told
        ensures { result ≡ completed self judge }
    {
        let before = self.judge;
        let profile = self.profile;
        let complete = one_more(self.complete);
        let tally = Tally {
            profile,
            judge,
            marks: self.marks,
            frames: self.frames,
            complete,
            broken: self.broken,
        };
        let news = News::Complete(self.frames, borders(before), self.marks);
        Told { tally, news }
    }

    // The judge refuses: 18 and 19 break the frame.
    fn refused(self, judge: Judge, refusal: Refusal, own: Option<Refusal>) -> Told
        ensures { result ≡ refused_by self judge refusal own }
    {
        if frame_judge::breaks_frame(refusal) {
            return self.broken_by(judge, refusal, own);
        }
        let before = self.judge;
        quiet(self.moved(before, judge))
    }

    // The frame is broken; another may open at once.
    fn broken_by(self, judge: Judge, refusal: Refusal, own: Option<Refusal>) -> Told
        ensures { result ≡ broken_by self judge refusal own }
    {
        let broken = one_more(self.broken);
        let profile = self.profile;
        let frames = opening(Judge::Waiting, judge, self.frames);
        let tally = Tally {
            profile,
            judge,
            marks: self.marks,
            frames,
            complete: self.complete,
            broken,
        };
        let news = News::Broken(self.frames, self.marks, refusal, own);
        Told { tally, news }
    }

    // The capture ends: a frame that is open is cut off, and the judge waits.
    fn cut(self) -> Told
        ensures { result ≡ cut_of self }
    {
        let judge = self.judge;
        match judge {
            Judge::Waiting => quiet(self),
            Judge::Due(_, _) => {
                let waiting = Judge::Waiting;
                let tally = self.moved(judge, waiting);
                let news = News::Cut(self.frames);
                Told { tally, news }
            }
        }
    }
}

// A tally without news.
fn quiet(tally: Tally) -> Told
    ensures { result ≡ quiet tally }
{
    let news = News::Nothing;
    Told { tally, news }
}

// The refusal that a mark was answered, if it was refused.
fn own_answer(answer: Answer) -> Option<Refusal>
    ensures { result ≡ own_answer answer }
{
    match answer {
        Answer::Nothing => None,
        Answer::Line(_) => None,
        Answer::Gap(_) => None,
        Answer::Refused(refusal) => Some(refusal),
    }
}

// Whether the capture ended within a line.
fn is_unfinished(last: Answer) -> bool
    ensures { result ≡ is_unfinished last }
{
    match last {
        Answer::Nothing => false,
        Answer::Line(_) => false,
        Answer::Gap(_) => false,
        Answer::Refused(refusal) => refusal == Refusal::UNFINISHED_LINE,
    }
}

// The borders of the frame that a judge is in.
fn borders(judge: Judge) -> Option<Borders>
    ensures { result ≡ borders_of judge }
{
    match judge {
        Judge::Waiting => None,
        Judge::Due(_, borders) => borders,
    }
}

// The frames that opened, by the judge before and after.
fn opening(before: Judge, judge: Judge, frames: u64) -> u64
    ensures { result ≡ opening before judge frames }
{
    match before {
        Judge::Waiting => match judge {
            Judge::Waiting => frames,
            Judge::Due(_, _) => one_more(frames),
        },
        Judge::Due(_, _) => frames,
    }
}
