// The marks of a capture listed (paper 01, the program's output): bytes in, text out, a row for each mark.
//
// In: the bytes of a capture, piece after piece, each byte its two nibbles, the high one first, and the place of a nibble from which a piece is
// taken; finish at the end. Out: the rows of the marks that are answered, at the front of a lent buffer, and how many nibbles were taken and
// bytes used. A piece is taken as far as the buffer has room for one row more. Nothing is refused. Cost: that of the reader's runs, and linear
// in the text.

#![tactic(auto)]

ghost use Rattle.std.specs.Prelude.{◌≡◌, ◌+◌, ◌≤◌, length, drop};
ghost use Rattle.stream.specs.Written.{nibbles};
ghost use Rattle.list_rows.specs.Rows.{row_of, row_room};
ghost use Rattle.text.specs.Put.{Put};
ghost use Rattle.list_marks.specs.MarkLister.{ListsMarks, fresh_lister, marks_with, listed_of, finished_of};

use counts::one_more;
use profile::Profile;
use reader::Reader;
use stream::Answer;

// A reader, and the marks it has answered. The count stops at the greatest u64.
#[derive(Clone, Copy)]
pub struct MarkLister {
    pub reader: Reader,
    pub marks: u64,
}

// A lister after a call, the nibbles it took, and the bytes of the buffer that it filled.
#[derive(Clone, Copy)]
pub struct MarksListed {
    pub lister: MarkLister,
    pub taken: usize,
    pub used: usize,
}

impl MarkLister {
    // A fresh reader, and no mark.
    pub fn new(profile: Profile) -> MarkLister
        ensures { result ≡ fresh_lister profile }
    {
        let reader = Reader::fresh(profile);
        MarkLister { reader, marks: 0 }
    }

    // Lists the nibbles of a piece's bytes from a place on, as far as the buffer has room. A reader that fails its own test takes nothing.
    pub fn list(self, input: &[u8], from: usize, out: &mut [u8]) -> MarksListed
        ensures { ListsMarks (listed_of self (length out.old) (drop from (nibbles input.now))) result out.old out.new }
    {
        let reader = self.reader;
        let mut head = reader.head;
        if capture_bytes::is_sound(head) {
            let mut body = reader.body;
            let mut line = [0u8; Profile::LONGEST];
            let mut marks = self.marks;
            let mut used: usize = 0;
            let mut at = from;
            // Not a for: each turn goes on by what the run took.
            while lister_laws::goes_on(input.len(), at, list_rows::ROW, out.len() - used) {
                let t = capture_bytes::run(head, &mut body, input, at, &mut line);
                head = t.head;
                let answer = t.answer;
                at += t.taken;
                marks = with_mark(marks, answer);
                used = put_row(marks, answer, out, used);
            }
            let reader = Reader { head, body };
            let lister = MarkLister { reader, marks };
            return MarksListed {
                lister,
                taken: at - from,
                used,
            };
        }
        MarksListed {
            lister: self,
            taken: 0,
            used: 0,
        }
    }

    // Lists the last mark, if there is one, and leaves a fresh lister. A buffer with less room than a row can ask for leaves all as it was.
    pub fn finish(self, out: &mut [u8]) -> MarksListed
        ensures { ListsMarks (finished_of self (length out.old)) result out.old out.new }
    {
        if out.len() < list_rows::ROW {
            return MarksListed {
                lister: self,
                taken: 0,
                used: 0,
            };
        }
        let reader = self.reader;
        let fed = reader.finish();
        let answer = fed.answer;
        let marks = with_mark(self.marks, answer);
        let used = put_row(marks, answer, out, 0);
        let reader = fed.reader;
        let lister = MarkLister { reader, marks: 0 };
        MarksListed {
            lister,
            taken: 0,
            used,
        }
    }
}

// The marks with an answer.
fn with_mark(marks: u64, answer: Answer) -> u64
    ensures { result ≡ marks_with marks answer }
{
    if answer.is_answer() {
        return one_more(marks);
    }
    marks
}

// Puts the row of a mark at a place, and gives the place after it.
fn put_row(mark: u64, answer: Answer, out: &mut [u8], at: usize) -> usize
    requires { at + row_room ≤ length out.old }
    ensures { Put out.old at (row_of mark answer) result out.new }
{
    at + list_rows::row(mark, answer, &mut out[at..])
}
