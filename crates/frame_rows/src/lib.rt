// The rows of a complete profile 0 frame, gathered from the reader's answers (paper 02, A1, A2 and A13): the row of each of its lines, which crate
// frame_row puts, with its place in the frame.
//
// In: the answer of each call to the reader, in order, with the line buffer as it is then, and a lent buffer for rows. What
// frame_handing::handed_over has of an answer goes to the judge. A line that is due puts its row after the rows kept; a frame that breaks leaves none.
// Out: beside the next gatherer, nothing yet, or at a frame's last line the length of its rows, which stand at the front of the buffer;
// `pgm::write` takes a picture's, `diff_lines::compare` the lines. Refused, and then nothing changes: 11 and 14 as the judge refuses them; 12
// where a line is due and the line buffer is shorter than 356, or the rows' buffer than the rows with its own. A buffer of pgm::MOST_PIXELS has
// room for every picture, one of ALL_LINES for every frame's lines. Cost: linear in the row that is put.

#![tactic(auto)]

ghost use Rattle.std.specs.Prelude.{◌≡◌, take, Ok, Err, None};
ghost use Rattle.profile.specs.Profile.{width};
ghost use Rattle.frame_rows.specs.FrameRows.{fresh, moved, saying, place_due, shown_as, row_kept, completed, after_break, handed, take_of, Gathers};

use frame_judge::{Judge, Ruling};
use frame_row::Keeping;
use line_records::LINE;
use profile::Profile;
use refusal::Refusal;
use stream::Answer;

// The lines of a frame, and the bytes of all of them whole.
const LINES: usize = 304;

pub const ALL_LINES: usize = LINE * LINES;

// The judge; the bytes of rows that are kept for the frame it is in; what is kept.
#[derive(Clone, Copy)]
pub struct Gatherer {
    pub judge: Judge,
    pub kept: usize,
    pub keeping: Keeping,
}

// Nothing yet; the length of a complete frame's rows; or a refusal.
pub type Progress = Result<Option<usize>, Refusal>;

// A gatherer after an answer, and what is said.
#[derive(Clone, Copy)]
pub struct Gathered {
    pub gatherer: Gatherer,
    pub progress: Progress,
}

impl Gatherer {
    // A fresh judge, and no rows.
    pub fn new(keeping: Keeping) -> Gatherer
        ensures { result ≡ fresh keeping }
    {
        let judge = Judge::new();
        Gatherer {
            judge,
            kept: 0,
            keeping,
        }
    }

    // Takes the answer of a call, with the line buffer as that call left it.
    pub fn take(self, answer: Answer, line: &[u8], rows: &mut [u8]) -> Gathered
        ensures { Gathers (take_of self answer line.now rows.old) result rows.new }
    {
        match frame_handing::handed_over(answer) {
            None => quiet(self),
            Some(handed) => self.hand(handed.kind, handed.number, line, rows),
        }
    }

    // Hands the judge a line, or kind 0.
    fn hand(self, kind: u8, number: u16, line: &[u8], rows: &mut [u8]) -> Gathered
        ensures { Gathers (handed self (shown_as kind number line.now) rows.old) result rows.new }
    {
        let before = self.judge;
        let place = place_due(before);
        let judged = before.line(Profile::VV5404, kind, number);
        let judge = judged.judge;
        let ruling = judged.ruling;
        match ruling {
            Ruling::Waiting => quiet(self.moved(judge, 0)),
            Ruling::Going => self.keep_row(judge, self.kept, place, kind, line, rows),
            Ruling::Complete => self.completed(judge, place, kind, line, rows),
            Ruling::Refused(refusal) => {
                if frame_judge::breaks_frame(refusal) {
                    return self.after_break(judge, kind, line, rows);
                }
                refused(self, refusal)
            }
        }
    }

    // The judge afterwards, and the bytes of rows that are kept then.
    fn moved(self, judge: Judge, kept: usize) -> Gatherer
        ensures { result ≡ moved self judge kept }
    {
        let keeping = self.keeping;
        Gatherer {
            judge,
            kept,
            keeping,
        }
    }

    // A line that was due, and not the last: its row stands after the bytes kept.
    fn keep_row(
        self,
        judge: Judge,
        kept: usize,
        place: u16,
        kind: u8,
        line: &[u8],
        rows: &mut [u8],
    ) -> Gathered
        ensures { Gathers (row_kept self judge kept place kind (take width line.now) rows.old) result rows.new }
    {
        let keeping = self.keeping;
        match frame_row::keep(keeping, kept, place, kind, line, rows) {
            None => refused(self, Refusal::NO_ROOM),
            Some(end) => quiet(self.moved(judge, end)),
        }
    }

    // The frame's last line: with its row the frame is complete.
    fn completed(self, judge: Judge, place: u16, kind: u8, line: &[u8], rows: &mut [u8]) -> Gathered
        ensures { Gathers (completed self judge place kind (take width line.now) rows.old) result rows.new }
    {
        let keeping = self.keeping;
        match frame_row::keep(keeping, self.kept, place, kind, line, rows) {
            None => refused(self, Refusal::NO_ROOM),
            Some(end) => {
                let gatherer = self.moved(judge, 0);
                let progress = Ok(Some(end));
                Gathered { gatherer, progress }
            }
        }
    }

    // A line that breaks the frame: it may be the first of a new one.
    fn after_break(self, judge: Judge, kind: u8, line: &[u8], rows: &mut [u8]) -> Gathered
        ensures { Gathers (after_break self judge kind (take width line.now) rows.old) result rows.new }
    {
        match judge {
            Judge::Waiting => quiet(self.moved(judge, 0)),
            Judge::Due(_, _) => self.keep_row(judge, 0, 0, kind, line, rows),
        }
    }
}

// The place of the line that is due.
fn place_due(judge: Judge) -> u16
    ensures { result ≡ place_due judge }
{
    match judge {
        Judge::Waiting => 0,
        Judge::Due(place, _) => place,
    }
}

// A gatherer, and nothing to say yet.
fn quiet(gatherer: Gatherer) -> Gathered
    ensures { result ≡ saying gatherer (Ok None) }
{
    let progress = Ok(None);
    Gathered { gatherer, progress }
}

// A refusal, which leaves the gatherer as it was.
fn refused(gatherer: Gatherer, refusal: Refusal) -> Gathered
    ensures { result ≡ saying gatherer (Err refusal) }
{
    let progress = Err(refusal);
    Gathered { gatherer, progress }
}
