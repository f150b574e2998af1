// A table of half-line means of a VV5300 capture (paper 02, A10): bytes in, text out, a row for each visible line.
//
// In: the bytes of a capture, piece after piece, each byte its two nibbles, the high one first, and the place of a nibble from which a piece is
// taken; finish at the end. Out: the rows, at the front of a lent buffer, and how many nibbles were taken and bytes used. A visible line has its
// row when its gap is answered: a good gap holds the sensor's two means; one that is refused has a row that says so. A piece is taken as far as
// the buffer has room for one row more. Nothing is refused. Cost: that of the reader's runs, and linear in the text.

#![tactic(auto)]

ghost use Rattle.std.specs.Prelude.{◌≡◌, ◌+◌, ◌≤◌, length, drop};
ghost use Rattle.profile.specs.Profile.{longest};
ghost use Rattle.stream.specs.Written.{nibbles};
ghost use Rattle.text.specs.Put.{Put, AtFront};
ghost use Rattle.mean_rows.specs.MeanRows.{means_row, means_room};
ghost use Rattle.list_means.specs.MeanLister.{fresh_lister, gap_row, answer_row, text_of, listed_of, finished_of, ListsMeans};

use half_means::Halves;
use line_code::Kind;
use mean_gap::Awaits;
use profile::Profile;
use reader::Reader;
use refusal::Refusal;
use stream::{Answer, GapFacts};
use text::Page;

// A reader, the line buffer that it is lent, and what is awaited of its answers.
#[derive(Clone, Copy)]
pub struct MeanLister {
    pub reader: Reader,
    pub line: [u8; Profile::LONGEST],
    pub awaits: Awaits,
}

// A lister after a call, the nibbles it took, and the bytes of the buffer that it filled.
#[derive(Clone, Copy)]
pub struct MeansListed {
    pub lister: MeanLister,
    pub taken: usize,
    pub used: usize,
}

impl MeanLister {
    // A fresh VV5300 reader, an empty line buffer, and a line awaited.
    pub fn new() -> MeanLister
        ensures { result ≡ fresh_lister }
    {
        let reader = Reader::fresh(Profile::VV5300);
        let line = [0u8; Profile::LONGEST];
        let awaits = None;
        MeanLister {
            reader,
            line,
            awaits,
        }
    }

    // Lists the nibbles of a piece's bytes from a place on, as far as the buffer has room. A reader that fails its own test takes nothing.
    pub fn list(self, input: &[u8], from: usize, out: &mut [u8]) -> MeansListed
        ensures { ListsMeans (listed_of self (length out.old) (drop from (nibbles input.now))) result out.old out.new }
    {
        let reader = self.reader;
        let mut head = reader.head;
        if capture_bytes::is_sound(head) {
            let mut body = reader.body;
            let mut line = self.line;
            let mut awaits = self.awaits;
            let mut used: usize = 0;
            let mut at = from;
            // Not a for: each turn goes on by what the run took.
            while lister_laws::goes_on(input.len(), at, mean_rows::ROOM, out.len() - used) {
                let t = capture_bytes::run(head, &mut body, input, at, &mut line);
                head = t.head;
                let answer = t.answer;
                at += t.taken;
                used = put_text(awaits, answer, &line, out, used);
                awaits = mean_gap::after(awaits, answer);
            }
            let reader = Reader { head, body };
            let lister = MeanLister {
                reader,
                line,
                awaits,
            };
            return MeansListed {
                lister,
                taken: at - from,
                used,
            };
        }
        MeansListed {
            lister: self,
            taken: 0,
            used: 0,
        }
    }

    // Lists the last mark, if there is one, and leaves a fresh reader, with a line awaited. A buffer with less room than a row can ask for
    // leaves all as it was.
    pub fn finish(self, out: &mut [u8]) -> MeansListed
        ensures { ListsMeans (finished_of self (length out.old)) result out.old out.new }
    {
        if out.len() < mean_rows::ROOM {
            return MeansListed {
                lister: self,
                taken: 0,
                used: 0,
            };
        }
        let reader = self.reader;
        let fed = reader.finish();
        let answer = fed.answer;
        let line = self.line;
        let awaited = self.awaits;
        let used = put_text(awaited, answer, &line, out, 0);
        let reader = fed.reader;
        let awaits = None;
        let lister = MeanLister {
            reader,
            line,
            awaits,
        };
        MeansListed {
            lister,
            taken: 0,
            used,
        }
    }
}

// Puts the row that an answer completes, if it does, at a place, and gives the place after it.
fn put_text(awaits: Awaits, answer: Answer, line: &[u8], out: &mut [u8], at: usize) -> usize
    requires { (length line.now ≡ longest) × (at + means_room ≤ length out.old) }
    ensures { Put out.old at (text_of awaits answer line.now) result out.new }
{
    match awaits {
        None => at,
        Some(number) => put_answer(number, answer, line, out, at),
    }
}

// Puts the row of the visible line with this number, where its gap is answered.
fn put_answer(number: u16, answer: Answer, line: &[u8], out: &mut [u8], at: usize) -> usize
    requires { (length line.now ≡ longest) × (at + means_room ≤ length out.old) }
    ensures { Put out.old at (answer_row number answer line.now) result out.new }
{
    match answer {
        Answer::Nothing => at,
        Answer::Line(_) => at,
        Answer::Gap(gap) => put_gap(number, gap, line, out, at),
        Answer::Refused(refusal) => put_row(number, 0, 0, Err(refusal), out, at),
    }
}

fn put_gap(number: u16, gap: GapFacts, line: &[u8], out: &mut [u8], at: usize) -> usize
    requires { (length line.now ≡ longest) × (at + means_room ≤ length out.old) }
    ensures { Put out.old at (gap_row number gap line.now) result out.new }
{
    let body = &line[..Profile::VV5300.body_length()];
    let halves = half_means::of_line(1, Kind::VL.number(), body, gap.first, gap.second);
    put_row(number, gap.first, gap.second, halves, out, at)
}

// A row has room.
fn put_row(
    number: u16,
    first: u8,
    second: u8,
    halves: Result<Halves, Refusal>,
    out: &mut [u8],
    at: usize,
) -> usize
    requires { at + means_room ≤ length out.old }
    ensures { Put out.old at (means_row number first second halves) result out.new }
{
    at + row(number, first, second, halves, &mut out[at..])
}

fn row(number: u16, first: u8, second: u8, halves: Result<Halves, Refusal>, out: &mut [u8]) -> usize
    requires { means_room ≤ length out.old }
    ensures { AtFront (means_row number first second halves) result out.old out.new }
{
    let mut page = Page::new(out);
    mean_rows::put_row(number, first, second, halves, &mut page);
    page.used
}
