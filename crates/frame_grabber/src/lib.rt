// A frame grabber (paper 02, A1, A2 and A13): the first complete profile 0 frame of a capture.
//
// In: the bytes of a capture, piece after piece, each byte its two nibbles, the high one first; the place of a nibble from which a piece is
// taken; and a lent buffer for rows, the same one each time. Each answer of the reader goes to the gatherer of rows. Out: beside the next
// grabber, how many nibbles were taken, and nothing yet, or the length of a complete frame's rows, which stand at the front of the buffer;
// `pgm::write` or `diff_lines::compare` takes them. A piece is taken up to the nibble at which a frame is complete or something is refused. Refused: 11 where the reader
// fails its own test, before anything is taken; else as the gatherer refuses: 11 and 14 of the judge, 12 of the rows' buffer. A buffer of
// pgm::MOST_PIXELS has room for every frame. Cost: that of the reader's runs, and linear in the rows; memory does not grow with the capture.

#![tactic(auto)]

ghost use Rattle.std.specs.Prelude.{◌≡◌, ◌&&◌, not, [], ◌/◌, ltb, drop};
ghost use Rattle.stream.specs.Written.{nibbles};
ghost use Rattle.frame_rows.specs.FrameRows.{output_of};
ghost use Rattle.frame_grabber.specs.FrameGrabber.{fresh_grabber, is_said, grab_of, Grabs};

use frame_row::Keeping;
use frame_rows::{Gatherer, Progress};
use profile::Profile;
use reader::Reader;
use refusal::Refusal;

// A reader, and the gatherer of the rows of its lines.
#[derive(Clone, Copy)]
pub struct Grabber {
    pub reader: Reader,
    pub gatherer: Gatherer,
}

// A grabber after a call, how many nibbles it took, and what is said.
#[derive(Clone, Copy)]
pub struct Grabbed {
    pub grabber: Grabber,
    pub taken: usize,
    pub progress: Progress,
}

impl Grabber {
    // A fresh profile 0 reader, and a fresh gatherer.
    pub fn new(keeping: Keeping) -> Grabber
        ensures { result ≡ fresh_grabber keeping }
    {
        let reader = Reader::fresh(Profile::VV5404);
        let gatherer = Gatherer::new(keeping);
        Grabber { reader, gatherer }
    }

    // Takes the nibbles of a piece's bytes from a place on, up to the first at which something is said.
    pub fn grab(self, input: &[u8], from: usize, rows: &mut [u8]) -> Grabbed
        ensures { Grabs (grab_of self (drop from (nibbles input.now)) rows.old) result rows.new }
    {
        let reader = self.reader;
        let mut head = reader.head;
        if capture_bytes::is_sound(head) {
            let mut body = reader.body;
            let mut gatherer = self.gatherer;
            let mut progress = Ok(None);
            let mut at = from;
            // Not a for: each turn goes on by what the run took.
            while goes_on(progress, at, input.len()) {
                let mut line = [0u8; Profile::LONGEST];
                let t = capture_bytes::run(head, &mut body, input, at, &mut line);
                head = t.head;
                let answer = t.answer;
                at += t.taken;
                let g = gatherer.take(answer, &line, rows);
                gatherer = g.gatherer;
                progress = g.progress;
            }
            let reader = Reader { head, body };
            let grabber = Grabber { reader, gatherer };
            return Grabbed {
                grabber,
                taken: at - from,
                progress,
            };
        }
        let progress = Err(Refusal::BAD_STATE);
        Grabbed {
            grabber: self,
            taken: 0,
            progress,
        }
    }
}

// Whether nothing is said yet, and a nibble left at a place.
fn goes_on(progress: Progress, at: usize, bytes: usize) -> bool
    ensures { result ≡ (not (is_said (output_of progress [])) && ltb (at / 2) bytes) }
{
    match progress {
        Ok(None) => at / 2 < bytes,
        Ok(Some(_)) => false,
        Err(_) => false,
    }
}
